//! Worked instructions, machines, code and arenas.
#![tactic(auto)]

#[cfg(test)]
mod arenas;
#[cfg(test)]
mod bases;
#[cfg(test)]
mod machines;
#[cfg(test)]
mod regions;
#[cfg(test)]
mod spellings;
