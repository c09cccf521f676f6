// What was decoded once, and is found again by its bytes.
#![tactic(auto)]

ghost use Rattle.std.specs.Prelude.{◌≡◌, ◌≤◌, ◌<◌, IsTrue, length, take};
ghost use Rattle.x64_encode.specs.Form.{InstrForm};
ghost use Rattle.x64_machine.specs.Note.{Note};

use std::marker::Model;
use x64_encode::Instr;

/// How many notes a machine keeps.
pub(crate) const NOTES: usize = 4096;

/// A window of bytes, of which the first `count` are code, and the instruction that they begin with.
#[derive(Clone, Copy)]
pub(crate) struct Noted {
    window: [u8; 16],
    count: usize,
    instr: Instr,
    len: usize,
}

impl Model for Noted {
    ghost use Rattle.x64_machine.specs.Note.{Note};
    ghost use Rattle.x64_machine.specs.Step.{Begins};
    ghost use Rattle.std.specs.Prelude.{take, refl};

    ghost Value = { Note };

    ghost view = { λ n. record { window = n.window; count = n.count; instr = n.instr; len = n.len } };

    ghost invariant = { λ n. Begins (take n.count n.window) n.instr n.len };

    ghost inverse = { λ v. record { window = v.window; count = v.count; instr = v.instr; len = v.len } };

    ghost inverse_ok = { λ n h. refl };
}

impl Noted {
    pub(crate) fn new(window: [u8; 16], count: usize, instr: Instr, len: usize) -> Noted
        requires len { len ≤ length (take count window) }
        requires form { InstrForm instr (take len (take count window)) }
    {
        Noted {
            window,
            count,
            instr,
            len,
        }
    }

    /// Whether these are the bytes.
    pub(crate) fn is_of(&self, window: &[u8; 16], count: usize) -> bool
        ensures { IsTrue result → take self.now.count self.now.window ≡ take count window.now }
    {
        self.count == count && self.window == *window
    }

    pub(crate) fn instr(&self) -> Instr
        ensures value { result ≡ self.now.instr }
        ensures form { InstrForm self.now.instr (take self.now.len (take self.now.count self.now.window)) }
    {
        self.instr
    }

    pub(crate) fn len(&self) -> usize
        ensures value { result ≡ self.now.len }
        ensures within { self.now.len ≤ length (take self.now.count self.now.window) }
    {
        self.len
    }
}

/// A note of RET.
pub(crate) fn first_note() -> Noted {
    let mut window = [0; 16];
    window[0] = 0xC3;
    Noted::new(window, 1, Instr::Ret, 1)
}
