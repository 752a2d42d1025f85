//! Why an operation is refused.

ghost use Rattle.std.specs.Prelude.{◌≡◌};
ghost use Rattle.pres_write.specs.Faults.{number_of, name_of};

use pres_tree::TreeFault;
use std::alloc::{AllocError, AllocFailed};
use thiserror::Error;

/// Why an operation is refused.
#[derive(Clone, Copy, Debug, Error, PartialEq, Eq)]
pub enum WriteFault {
    /// A path or a value of it is.
    #[error("{0}")]
    Tree(TreeFault),
    /// One place of an update is at or above another, or named twice.
    #[error("one place is at or above another")]
    Overlap,
    /// An update names more than 256 places.
    #[error("more than 256 places")]
    ManyPaths,
    /// The JSON value has none of the forms of operations.
    #[error("not an operation")]
    Shape,
}

impl WriteFault {
    /// The number that programs and messages give: that of the tree's refusal, or 9 to 11.
    pub fn number(self) -> u8
        ensures { result ≡ number_of self }
    {
        match self {
            WriteFault::Tree(fault) => fault.number(),
            WriteFault::Overlap => 9,
            WriteFault::ManyPaths => 10,
            WriteFault::Shape => 11,
        }
    }

    /// The name that programs print.
    pub fn name(self) -> &'static str
        ensures { result.now ≡ name_of self }
    {
        match self {
            WriteFault::Tree(fault) => fault.name(),
            WriteFault::Overlap => "Overlap",
            WriteFault::ManyPaths => "ManyPaths",
            WriteFault::Shape => "Shape",
        }
    }
}

impl From<TreeFault> for WriteFault {
    ghost use Rattle.std.specs.Prelude.{◌≡◌};
    ghost use Rattle.pres_write.specs.declared.fault.WriteFault.TheVariants.{Tree};

    ghost from_gives = { λ fault e. e ≡ Tree fault };

    fn from(fault: TreeFault) -> WriteFault {
        WriteFault::Tree(fault)
    }
}

impl From<AllocError> for WriteFault {
    ghost use Rattle.std.specs.Prelude.{◌≡◌};
    ghost use Rattle.pres_tree.specs.declared.fault.TreeFault.TheVariants.{Memory};
    ghost use Rattle.pres_write.specs.declared.fault.WriteFault.TheVariants.{Tree};

    ghost from_gives = { λ _ e. e ≡ Tree Memory };

    fn from(_refused: AllocError) -> WriteFault {
        WriteFault::Tree(TreeFault::Memory)
    }
}

impl<T: Drop> From<AllocFailed<T>> for WriteFault {
    ghost use Rattle.std.specs.Prelude.{◌≡◌};
    ghost use Rattle.pres_tree.specs.declared.fault.TreeFault.TheVariants.{Memory};
    ghost use Rattle.pres_write.specs.declared.fault.WriteFault.TheVariants.{Tree};

    ghost from_gives = { λ _ e. e ≡ Tree Memory };

    fn from(_refused: AllocFailed<T>) -> WriteFault {
        WriteFault::Tree(TreeFault::Memory)
    }
}
