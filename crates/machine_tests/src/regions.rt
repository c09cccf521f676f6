//! Patches within a chunk and across two.

use code_region::Region;
use std::test::Fail;
use target_base::Fetch;

#[test]
fn a_patch_crosses_two_chunks(rt: HostRuntime) -> Result<(), Fail> {
    let mut region = Region::new(rt.alloc())?;
    region.reserve(65539)?;
    let returns = Vec::from_elem(rt.alloc(), 0xC3u8, 65534)?;
    let _ = region.append(&returns);
    assert_eq!(rt; region.append(&[0xE9, 0, 0, 0, 0]), 65534);
    region.patch4(65535, 16);
    let mut bytes = [0u8; 16];
    assert_eq!(rt; region.fetch(65534, &mut bytes), 5);
    assert!(rt; bytes.starts_with(&[0xE9, 0x10, 0, 0, 0]));
    assert_eq!(rt; region.fetch(65520, &mut bytes), 16);
    assert!(rt; bytes.ends_with(&[0xC3, 0xE9, 0x10]));
    assert_eq!(rt; region.fetch(65523, &mut bytes), 16);
    assert!(rt; bytes.ends_with(&[0xC3, 0xE9, 0x10, 0, 0, 0]));
    Ok(())
}

#[test]
fn a_patch_changes_a_jump(rt: HostRuntime) -> Result<(), Fail> {
    let mut region = Region::new(rt.alloc())?;
    region.reserve(5)?;
    assert_eq!(rt; region.append(&[0xE9, 0, 0, 0, 0]), 0);
    region.patch4(1, 16);
    let mut bytes = [0u8; 16];
    assert_eq!(rt; region.fetch(0, &mut bytes), 5);
    assert!(rt; bytes.starts_with(&[0xE9, 0x10, 0, 0, 0]));
    Ok(())
}
