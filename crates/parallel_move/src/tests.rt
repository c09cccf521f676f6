use crate::{Move, moves};
use std::test::Fail;
use target_base::{Place, Reg};

#[test]
fn two_places_exchange(rt: HostRuntime) -> Result<(), Fail> {
    let rax = Place::In(Reg(0));
    let rcx = Place::In(Reg(1));
    let found = moves(rt.alloc(), &[(rax, rcx), (rcx, rax)])?;
    assert_eq!(rt; found.as_slice(), [Move::Swap(rax, rcx)].as_slice());
    Ok(())
}
