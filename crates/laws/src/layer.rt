// Who refuses, by the numbers that faults carry.
ghost use Rattle.std.specs.Prelude.{◌≡◌};
ghost use Rattle.laws.specs.Numbers.{layer_number};

#[derive(Clone, Copy, PartialEq, Eq, Debug)]
pub enum Layer {
    // a sheet file
    File = 1,
    // a sheet's own calls
    Sheet = 2,
    // tables, reductions and solvers
    Pile = 3,
}

impl From<Layer> for u8 {
    ghost from_gives = { λ l r. r ≡ layer_number l };

    fn from(layer: Layer) -> u8 {
        layer as u8
    }
}
