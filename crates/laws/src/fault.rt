// The record of a refusal.
ghost use Rattle.std.specs.Prelude.{◌≡◌, Some};
ghost use Rattle.laws.specs.Faults.{fault};
ghost use Rattle.laws.specs.Meanings.{fault_words};
ghost use Rattle.laws.specs.Numbers.{check_number, layer_number};

use crate::check::Check;
use crate::layer::Layer;
use std::error::Error;
use std::fmt;

// Why a call was refused, in five numbers. What has no sense in a fault is 0.
#[derive(Clone, Copy, PartialEq, Eq, Debug)]
pub struct Fault {
    // who refused: 1 the file, 2 the sheet, 3 the pile (tables, reductions, solvers), by `Layer`. This and the number below are
    // bytes, since an answer record may carry any byte there
    pub layer: u8,
    // how many layers of a pile the refusal came up through, resting at 255
    pub depth: u8,
    // which check failed, by `Check`
    pub number: u8,
    // where in a list of codes, or the number that a limit was held against
    pub place: u16,
    // where in a file
    pub offset: u16,
}

impl Fault {
    // The fault of a layer's check; depth, place and offset are 0.
    pub fn new(layer: Layer, check: Check) -> Fault
        ensures { result ≡ fault (layer_number layer) (check_number check) 0 }
    {
        Fault {
            layer: layer.into(),
            depth: 0,
            number: check.into(),
            place: 0,
            offset: 0,
        }
    }
}

// Its five numbers.
impl fmt::Display for Fault {
    ghost output = { λ f. Some (fault_words f) };

    fn fmt<W: fmt::Write>(&self, f: &mut fmt::Formatter<W>) -> fmt::Result {
        let Fault {
            layer,
            depth,
            number,
            place,
            offset,
        } = self;
        write!(
            f,
            "layer {layer}, depth {depth}, number {number}, place {place}, offset {offset}"
        )
    }
}

impl Error for Fault {}
