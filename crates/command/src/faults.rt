// Why a frame is turned away: a fault says which layer found it, with that layer's own fault inside.
ghost use Rattle.std.specs.Prelude.{◌≡◌};
ghost use Rattle.command.specs.Faults.{code_of};
ghost use Rattle.command.specs.declared.faults.Fault.TheVariants.{Wire, Command, Chain, Dictionary};

// What may be wrong with a frame itself, by its abort code.
#[derive(Clone, Copy, Debug, PartialEq, Eq)]
pub enum CommandFault {
    // The OpCode names no command.
    OpCode = 0x0f00_ffbf,
    // The command has another Len.
    Len = 0x0607_0010,
    // The frame is for another node.
    Node = 0x0f00_ffb9,
}

// What may be wrong with a segment of a chain, by its abort code.
#[derive(Clone, Copy, Debug, PartialEq, Eq)]
pub enum ChainFault {
    // No chain of its direction is open.
    NoChain = 0x0800_0022,
    // It is the other toggle's turn.
    Toggle = 0x0503_0000,
    // Its n bytes do not fit its Len.
    Misfit = 0x0607_0010,
    // With it the chain would hold more bytes than declared.
    SumOver = 0x0607_0012,
    // It is marked last, but the chain would hold fewer bytes than declared.
    LastShort = 0x0607_0013,
}

#[derive(Clone, Copy, Debug, PartialEq, Eq)]
pub enum Fault {
    Wire(wire::Fault),
    Command(CommandFault),
    Chain(ChainFault),
    Dictionary(dictionary::Fault),
}

impl Fault {
    // The abort code that an answer carries.
    pub fn code(self) -> u32
        ensures { result ≡ code_of self }
    {
        match self {
            Fault::Wire(fault) => fault.code(),
            Fault::Command(fault) => fault as u32,
            Fault::Chain(fault) => fault as u32,
            Fault::Dictionary(fault) => fault.code(),
        }
    }
}

// By hand: a derive would not state `from_gives`, which fault a `?` makes.
impl From<wire::Fault> for Fault {
    ghost from_gives = { λ e r. r ≡ Wire e };

    fn from(e: wire::Fault) -> Fault {
        Fault::Wire(e)
    }
}

impl From<CommandFault> for Fault {
    ghost from_gives = { λ e r. r ≡ Command e };

    fn from(e: CommandFault) -> Fault {
        Fault::Command(e)
    }
}

impl From<ChainFault> for Fault {
    ghost from_gives = { λ e r. r ≡ Chain e };

    fn from(e: ChainFault) -> Fault {
        Fault::Chain(e)
    }
}

impl From<dictionary::Fault> for Fault {
    ghost from_gives = { λ e r. r ≡ Dictionary e };

    fn from(e: dictionary::Fault) -> Fault {
        Fault::Dictionary(e)
    }
}
