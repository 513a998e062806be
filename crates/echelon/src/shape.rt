// How rows lie in flat words.
ghost use Rattle.std.specs.Prelude.{◌≡◌, ◌≤◌};
ghost use Rattle.rows.specs.Flat.{width_of};

// How many atoms there are, and the words of a row over them.
#[derive(Clone, Copy)]
pub struct Shape {
    pub atoms: usize,
    pub width: usize,
    ghost few: { atoms ≤ 512 },
    ghost wide: { width ≡ width_of atoms },
}

impl Shape {
    pub fn of(atoms: usize) -> Shape
        requires { atoms ≤ 512 }
        ensures { result.atoms ≡ atoms }
    {
        Shape {
            atoms,
            width: rows::width(atoms),
        }
    }
}
