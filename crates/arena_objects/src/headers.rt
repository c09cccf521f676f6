// The header numbers of a table's shapes.

ghost use Rattle.std.specs.Prelude.{◌≡◌, ◌<◌, ◌^◌, length, slice_index_or, slice_set, IfOk};
ghost use Rattle.arena_objects.specs.Headers.{HeaderNumbers, HaveHeaders, header_in, with_header};

use std::alloc::{AllocError, Global};
use std::marker::Model;
use trace_ops::{ShapeOf, Table};

/// The header number of each size and array of a table.
#[derive(Drop)]
pub struct Headers {
    sizes: Vec<u32>,
    arrays: Vec<u32>,
}

impl Model for Headers {
    ghost Value = { HeaderNumbers };

    ghost view = { λ h. record { sizes = h.sizes.items; arrays = h.arrays.items } };
}

impl Headers {
    /// The header numbers of a table's shapes.
    pub fn new(alloc: Global, table: &Table) -> Result<Headers, AllocError>
        requires { length table.now.shapes < 2 ^ 32 }
        ensures { IfOk result (λ h. HaveHeaders table.now h) }
    {
        let mut headers = Headers {
            sizes: vec![in alloc; 0u32; table.sizes.items().len()]?,
            arrays: vec![in alloc; 0u32; table.arrays.items().len()]?,
        };
        let shapes = table.shapes.items();
        let mut k = shapes.len();
        while k > 0 {
            headers.set(shapes[k - 1], k as u32);
            k -= 1;
        }
        Ok(headers)
    }

    /// The header number of a shape.
    pub fn of(&self, shape: ShapeOf) -> u32
        ensures { result ≡ header_in self.now shape }
    {
        match shape {
            ShapeOf::Size(size) => number_at(&self.sizes, size),
            ShapeOf::Array(array) => number_at(&self.arrays, array),
        }
    }

    fn set(&mut self, shape: ShapeOf, number: u32)
        ensures { self.new ≡ with_header shape number self.old }
    {
        match shape {
            ShapeOf::Size(size) => put_at(&mut self.sizes, size, number),
            ShapeOf::Array(array) => put_at(&mut self.arrays, array, number),
        }
    }
}

fn number_at(numbers: &Vec<u32>, k: u32) -> u32
    ensures { result ≡ slice_index_or numbers.now.items k 0 }
{
    numbers.get(k as usize).copied().unwrap_or(0)
}

// Writes a number, where it has a place.
fn put_at(numbers: &mut Vec<u32>, k: u32, number: u32)
    ensures { numbers.new.items ≡ slice_set numbers.old.items k number }
{
    if (k as usize) < numbers.len() {
        numbers[k as usize] = number;
    }
}
