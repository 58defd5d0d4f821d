//! The names of the parts of a certificate.
ghost use Rattle.std.specs.Prelude.{◌≡◌, ◌≤◌, ◌↔◌, ◌++◌, ◌∷◌, [], All, AllPairs, IsTrue, OnOk, length};
ghost use Rattle.crp_tree.specs.Names.{Precedes};

use crp_tree::Name;
use std::alloc::{AllocError, Global};
use std::marker::Model;

/// The names of the parts of a certificate, which rise. A contract sees them as a list.
#[derive(Drop)]
pub struct PartNames {
    names: Vec<Name>,
}

impl Model for PartNames {
    ghost use Rattle.std.specs.Prelude.{List, ℕ, ◌≤◌, length, All, AllPairs};
    ghost use Rattle.crp_tree.specs.Names.{Precedes};

    ghost Value = { List (List ℕ) };

    ghost view = { λ a. a.names.items };

    ghost invariant = { λ a. AllPairs Precedes a.names.items × All (λ name. length name ≤ 8) a.names.items };
}

/// Whether a name comes after others, which rise.
fn come_before(names: &[Name], name: &Name) -> bool
    requires { AllPairs Precedes names.now }
    ensures { IsTrue result ↔ All (λ other. Precedes other name.now) names.now }
{
    match names.last() {
        Some(last) => last.cmp(name).is_lt(),
        None => true,
    }
}

impl PartNames {
    /// No names.
    pub fn none(alloc: Global) -> PartNames
        ensures { result ≡ [] }
    {
        PartNames {
            names: Vec::new(alloc),
        }
    }

    /// How many they are.
    pub fn count(&self) -> usize
        ensures { result ≡ length self.now }
    {
        self.names.len()
    }

    /// Whether the name comes after all of them.
    pub fn come_before(&self, name: &Name) -> bool
        ensures { IsTrue result ↔ All (λ other. Precedes other name.now) self.now }
    {
        come_before(&self.names, name)
    }

    /// Adds a name that comes after all of them.
    pub fn push(&mut self, name: Name) -> Result<(), AllocError>
        requires { All (λ other. Precedes other name) self.old }
        ensures { OnOk result (self.new ≡ self.old ++ name ∷ []) }
    {
        // What `rows` ensures says that a name has 8 at most.
        let _rows = name.rows();
        self.names.push(name)?;
        Ok(())
    }

    /// The names, in order.
    pub fn into_vec(self) -> Vec<Name>
        ensures value { result.items ≡ self }
        ensures rising { AllPairs Precedes self }
        ensures short { All (λ name. length name ≤ 8) self }
    {
        self.names
    }
}
