//! Why a file was not made.

/// Why a file was not made out of another.
#[derive(Debug, Drop)]
pub enum Unmade {
    /// The other file is not what it should be, as this text says.
    Refused { text: String },
    /// Memory ran out.
    Memory,
}

/// What is said of a file for a fault: the fault's text; or memory ran out, where this is the fault or there is none for
/// the text.
#[macro_export]
macro_rules! unmade_by {
    ($alloc:expr, $fault:expr, $memory:pat) => {
        match $fault {
            $memory => $crate::Unmade::Memory,
            _ => match format!(in $alloc; "{}", $fault) {
                Ok(text) => $crate::Unmade::Refused { text },
                Err(_) => $crate::Unmade::Memory,
            },
        }
    };
}
