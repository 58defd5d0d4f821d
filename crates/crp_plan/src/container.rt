ghost use Rattle.std.specs.Prelude.{◌≡◌, IfOk};

use std::alloc::{AllocError, Global};
use std::marker::Model;

/// The name of a container, in bytes. Names are compared byte for byte.
#[derive(Drop)]
pub struct Container {
    bytes: Vec<u8>,
}

impl Model for Container {
    ghost use Rattle.std.specs.Prelude.{ℕ, List};

    ghost Value = { List ℕ };

    ghost view = { λ a. a.bytes.items };
}

impl Container {
    /// The container with this name. Takes no memory.
    pub fn from_vec(bytes: Vec<u8>) -> Container
        ensures { result ≡ bytes.items }
    {
        Container { bytes }
    }

    /// The container with this name.
    pub fn named(alloc: Global, bytes: &[u8]) -> Result<Container, AllocError>
        ensures { IfOk result (λ container. container ≡ bytes.now) }
    {
        let bytes = Vec::from_slice(alloc, bytes)?;
        Ok(Container { bytes })
    }

    /// The name.
    pub fn bytes(&self) -> &[u8]
        ensures { result.now ≡ self.now }
    {
        &self.bytes
    }
}
