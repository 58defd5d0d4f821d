//! What stands on the page before the sections.
ghost use Rattle.std.specs.Prelude.{◌≡◌, ◌++◌, map, IfOk, OnOk};
ghost use Rattle.std.specs.List.{AllByRecursion};
ghost use Rattle.crp_follow.specs.Views.{bay_followed};
ghost use Rattle.crp_page.specs.Few.{LeaveFew};
ghost use Rattle.crp_page.specs.Page.{page_head, page_key, page_front};

use crate::constants::{HEAD_OF_PAGE, KEY};
use crate::grounds::{push_hidden_ground, push_sizes};
use crate::ordered::OrderNumbers;
use crate::sheets::push_ship_rule;
use crate::summary::{push_paragraph, push_table};
use crp_follow::Followed;
use crp_loading::Ship;
use crp_yard::Yard;
use std::alloc::{AllocError, Global};

/// Adds the head, with the ship on each sheet where there is one, and where the body begins.
fn push_page_head(
    text: &mut Vec<u8>,
    heights: &[u8],
    ship: &Option<Ship<'_>>,
) -> Result<(), AllocError>
    ensures { OnOk result (text.new.items ≡ text.old.items ++ page_head heights.now ship.now) }
{
    text.extend_from_slice(HEAD_OF_PAGE)?;
    push_ship_rule(text, ship)?;
    text.extend_from_slice(b"</style></head><body><main style=\"")?;
    push_sizes(text, heights)?;
    text.extend_from_slice(b"\">\n<h1>Crane moves</h1>\n")
}

/// Adds the key of the pictures, and their ground.
fn push_page_key(alloc: Global, text: &mut Vec<u8>, heights: &[u8]) -> Result<(), AllocError>
    ensures { OnOk result (text.new.items ≡ text.old.items ++ page_key heights.now) }
{
    text.extend_from_slice(KEY)?;
    push_hidden_ground(alloc, text, None, heights)
}

/// What stands before the sections.
pub(crate) fn page_front(
    alloc: Global,
    yard: &Yard,
    numbers: OrderNumbers,
    ship: &Option<Ship<'_>>,
    followed: &Followed,
) -> Result<Vec<u8>, AllocError>
    requires { AllByRecursion LeaveFew (map bay_followed followed.now.bays.items) }
    ensures { IfOk result (λ text. text.items ≡ page_front yard.now numbers ship.now (map bay_followed followed.now.bays.items)) }
{
    let heights = yard.sizes().common();
    let mut text = Vec::new(alloc);
    push_page_head(&mut text, heights, ship)?;
    push_paragraph(&mut text, yard.count(), numbers, followed)?;
    push_table(&mut text, &followed.bays)?;
    push_page_key(alloc, &mut text, heights)?;
    Ok(text)
}
