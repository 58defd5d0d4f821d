//! What stands in a row of a bay.
ghost use Rattle.std.specs.Prelude.{◌≡◌, ◌∷◌, ◌++◌, [], IfOk, OnOk, IfSome, IfNone};

use crp_plan::Container;
use std::alloc::{AllocError, Global};
use std::marker::Model;

/// What stands in a row of a bay, from bottom to top.
#[derive(Drop)]
pub struct Row {
    containers: Vec<Container>,
}

impl Model for Row {
    ghost use Rattle.std.specs.Prelude.{ℕ, List};

    ghost Value = { List (List ℕ) };

    ghost view = { λ a. a.containers.items };
}

impl Row {
    /// The containers from bottom to top.
    pub fn containers(&self) -> &[Container]
        ensures { result.now ≡ self.now }
    {
        &self.containers
    }

    /// A row in which these containers stand, from bottom to top.
    pub fn of(alloc: Global, containers: &[Container]) -> Result<Row, AllocError>
        ensures { IfOk result (λ row. row ≡ containers.now) }
    {
        let containers = copied(alloc, containers)?;
        Ok(Row { containers })
    }

    /// Lifts the highest container.
    pub(crate) fn lift(&mut self) -> Option<Container>
        ensures lifted { IfSome result (λ container. self.old ≡ self.new ++ container ∷ []) }
        ensures none { IfNone result (self.old ≡ []) }
    {
        self.containers.pop()
    }

    /// Sets a container down on the others.
    pub(crate) fn set_down(&mut self, container: Container) -> Result<(), AllocError>
        ensures { OnOk result (self.new ≡ self.old ++ container ∷ []) }
    {
        self.containers.push(container).map_err(AllocError::from)
    }
}

/// The same names once more.
fn copied(alloc: Global, containers: &[Container]) -> Result<Vec<Container>, AllocError>
    ensures { IfOk result (λ copy. copy.items ≡ containers.now) }
{
    let mut copy = Vec::new(alloc);
    for container in containers {
        copy.push(Container::named(alloc, container.bytes())?)?;
    }
    Ok(copy)
}
