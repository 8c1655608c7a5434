//! The label of a point for a set.

ghost use Rattle.std.specs.Prelude.{◌≡◌};
ghost use Rattle.nef_space.specs.Labels.{label_number};

/// What a set says of a point: `Out` outside the frame, `In` where the set holds in the frame, `Not` where it doesn't.
#[derive(Debug, Clone, Copy, PartialEq, Eq)]
pub enum Label {
    Out,
    Not,
    In,
}

impl Label {
    /// -1 for `Out`, 0 for `Not`, 1 for `In`.
    pub fn number(self) -> i8
        ensures number { result ≡ label_number self }
    {
        match self {
            Label::Out => -1,
            Label::Not => 0,
            Label::In => 1,
        }
    }
}
