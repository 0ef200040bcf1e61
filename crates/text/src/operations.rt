// What a program is asked for, by name.
ghost use Rattle.text.specs.Operations.{Named};

#[derive(Clone, Copy)]
pub enum Operation {
    Check,
    Count,
    Label,
    Window,
}

impl Operation {
    // The operation of a name.
    pub fn named(name: &[u8]) -> Option<Operation>
        ensures { Named name.now result }
    {
        match name {
            b"check" => Some(Operation::Check),
            b"count" => Some(Operation::Count),
            b"label" => Some(Operation::Label),
            b"window" => Some(Operation::Window),
            _ => None,
        }
    }
}
