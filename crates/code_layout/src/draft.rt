// The bytes of instructions whose jumps lead to places.
#![tactic(auto)]

ghost use Rattle.std.specs.Prelude.{◌≡◌, ℕ, ◌+◌, ◌-◌, ◌*◌, ◌<◌, ◌≤◌, ◌^◌, ◌++◌, ◌∷◌, [], length, drop, All, IfOk, OnOk, IfSome, IsSome, Option};
ghost use Rattle.std.specs.Option.{option_map};
ghost use Rattle.x64_encode.specs.Form.{HasRow, spelling};
ghost use Rattle.code_layout.specs.Leading.{way};
ghost use Rattle.code_layout.specs.Emitting.{AllHaveRows, key_at, aimed, aimed_if, jumps_behind, emitted, noted, noted_if, total_size, listed, KeysBelow};

use std::alloc::AllocError;
use x64_encode::{Instr, encode};

// How many bytes an instruction has.
pub fn size_of(instr: &Instr) -> u32
    requires { HasRow instr.now }
    ensures size { result ≡ length (spelling instr.now) }
    ensures few { result ≤ 16 }
{
    let mut bytes = [0u8; 16];
    encode(instr, &mut bytes) as u32
}

// How many bytes instructions have.
pub fn size_of_all(instrs: &[Instr]) -> u32
    requires rows { AllHaveRows instrs.now }
    requires few { length instrs.now < 2 ^ 27 }
    ensures { result ≡ total_size instrs.now }
{
    let mut size = 0;
    for instr in instrs {
        size += size_of(instr);
    }
    size
}

// The displacement from behind a jump to a place.
fn way(from: u32, to: u32) -> i32
    requires from { from < 2 ^ 31 }
    requires to { to < 2 ^ 31 }
    ensures { result ≡ way from to }
{
    to as i32 - from as i32
}

// The jump that ends at this place, led to another one.
fn aimed(instr: &Instr, from: u32, to: u32) -> Instr
    requires from { from < 2 ^ 31 }
    requires to { to < 2 ^ 31 }
    ensures { result ≡ aimed from to instr.now }
{
    match *instr {
        Instr::Jcc(cond, _) => Instr::Jcc(cond, way(from, to)),
        Instr::Jmp(_) => Instr::Jmp(way(from, to)),
        other => other,
    }
}

fn push(code: &mut Vec<u8>, instr: &Instr) -> Result<(), AllocError>
    requires { HasRow instr.now }
    ensures { OnOk result (code.new.items ≡ code.old.items ++ spelling instr.now) }
{
    let mut bytes = [0u8; 16];
    let count = encode(instr, &mut bytes);
    code.extend_from_slice(&bytes[..count])
}

// The operation whose jump instruction n is, where the first of the jumps left is at `next`.
fn key_at(jumps: &[(u32, u32)], next: usize, n: u32) -> Option<u32>
    ensures { result ≡ key_at n (drop next jumps.now) }
{
    match jumps.get(next) {
        Some(&(at, key)) if at == n => Some(key),
        _ => None,
    }
}

// Where the first of the jumps behind instruction n is.
fn behind(jumps: &[(u32, u32)], next: usize, n: u32) -> usize
    ensures jumps { drop result jumps.now ≡ jumps_behind n (drop next jumps.now) }
    ensures few { result ≤ next + 1 }
{
    match jumps.get(next) {
        Some(&(at, _)) if at == n => next + 1,
        _ => next,
    }
}

// Code from a place on, and the operations and places of its jumps' displacements.
#[derive(Drop)]
pub struct Draft {
    pub from: u32,
    pub bytes: Vec<u8>,
    pub jumps: Vec<(u32, u32)>,
}

impl Draft {
    // Adds an instruction; where it is the jump of an operation, it leads to the place that `to` lists for it.
    fn add(&mut self, instr: &Instr, key: Option<u32>, to: &[u32]) -> Result<(), AllocError>
        requires row { HasRow instr.now }
        requires room { self.old.from + length self.old.bytes.items + 16 < 2 ^ 31 }
        requires key { IfSome key (λ k. k < length to.now) }
        requires near { All (λ place. place < 2 ^ 31) to.now }
        ensures from { self.new.from ≡ self.old.from }
        ensures bytes { OnOk result (self.new.bytes.items ≡ self.old.bytes.items ++ spelling (aimed_if (self.old.from + length self.old.bytes.items) (option_map (listed to.now) key) instr.now)) }
        ensures jumps { OnOk result (self.new.jumps.items ≡ self.old.jumps.items ++ noted_if key (self.old.from + length self.old.bytes.items + length (spelling instr.now))) }
    {
        match key {
            None => push(&mut self.bytes, instr),
            Some(k) => self.add_jump(instr, k, to[k as usize]),
        }
    }

    // Adds the jump of an operation, which leads to a place.
    fn add_jump(&mut self, instr: &Instr, key: u32, to: u32) -> Result<(), AllocError>
        requires row { HasRow instr.now }
        requires room { self.old.from + length self.old.bytes.items + 16 < 2 ^ 31 }
        requires near { to < 2 ^ 31 }
        ensures from { self.new.from ≡ self.old.from }
        ensures bytes { OnOk result (self.new.bytes.items ≡ self.old.bytes.items ++ spelling (aimed (self.old.from + length self.old.bytes.items + length (spelling instr.now)) to instr.now)) }
        ensures jumps { OnOk result (self.new.jumps.items ≡ self.old.jumps.items ++ (key, self.old.from + length self.old.bytes.items + length (spelling instr.now) - 4) ∷ []) }
    {
        let end = self.from + self.bytes.len() as u32 + size_of(instr);
        push(&mut self.bytes, &aimed(instr, end, to))?;
        self.jumps.push((key, end.saturating_sub(4)))?;
        Ok(())
    }

    // Adds instructions, and the jumps among them, each of which leads to the place that `to` lists for its operation.
    pub fn add_all(
        &mut self,
        instrs: &[Instr],
        jumps: &[(u32, u32)],
        to: &[u32],
    ) -> Result<(), AllocError>
        requires rows { AllHaveRows instrs.now }
        requires few { length instrs.now < 2 ^ 27 }
        requires room { self.old.from + length self.old.bytes.items + total_size instrs.now + 16 < 2 ^ 31 }
        requires keys { KeysBelow (length to.now) jumps.now }
        requires near { All (λ place. place < 2 ^ 31) to.now }
        ensures from { self.new.from ≡ self.old.from }
        ensures bytes { OnOk result (self.new.bytes.items ≡ self.old.bytes.items ++ emitted (listed to.now) (self.old.from + length self.old.bytes.items) 0 instrs.now jumps.now) }
        ensures size { OnOk result (length self.new.bytes.items ≡ length self.old.bytes.items + total_size instrs.now) }
        ensures jumps { OnOk result (self.new.jumps.items ≡ self.old.jumps.items ++ noted (self.old.from + length self.old.bytes.items) 0 instrs.now jumps.now) }
    {
        let mut next = 0;
        for n in 0..instrs.len() {
            let key = key_at(jumps, next, n as u32);
            self.add(&instrs[n], key, to)?;
            next = behind(jumps, next, n as u32);
        }
        Ok(())
    }
}
