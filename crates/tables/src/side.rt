// The sides of a node.
ghost use Rattle.std.specs.Prelude.{◌≡◌, ◌↔◌, ◌-◌, true};
ghost use Rattle.tables.specs.Sides.{side_number};

// Left leads on the signatures with 0 at the node's position, right those with 1.
#[derive(Clone, Copy, Debug, PartialEq, Eq)]
pub enum Side {
    Left,
    Right,
}

// The side of the signatures whose position is set, or is not.
impl From<bool> for Side {
    ghost from_gives = { λ set side. (side_number side ≡ 1) ↔ (set ≡ true) };

    fn from(set: bool) -> Side {
        if set { Side::Right } else { Side::Left }
    }
}

impl Side {
    // The other side.
    pub fn other(self) -> Side
        ensures { side_number result ≡ 1 - side_number self }
    {
        match self {
            Side::Left => Side::Right,
            Side::Right => Side::Left,
        }
    }
}
