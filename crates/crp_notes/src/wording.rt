//! Words the notes.
ghost use Rattle.std.specs.Prelude.{◌≡◌, ◌==◌, [], ◌++◌, IfOk, OnOk, length, take, map, flat_map, nat_lt, codes, decimal, if◌then◌else◌};
ghost use Rattle.crp_notes.specs.Wording.{note_of, quoted, joined, listed, containers_words, slot_words, function_note, no_codes_note, codes_note, unread_note, messages_note, absent_note, alike_note, slots_note, unknown_message_note, unknown_bay_note, bay_name, bay_words, which_words, beyond_note, unlisted_note, open_note, no_plan_note, size_note, left_note, loaded_note, more_note};

use crate::message::MAX_LISTED;
use crate::tiers::tiers_words;
use crp_plan::BayName;
use itoa::Buffer;
use std::alloc::{AllocError, Global};

/// The line of a note that has these parts.
pub(crate) fn note_of(alloc: Global, parts: &[&[u8]]) -> Result<Vec<u8>, AllocError>
    ensures { IfOk result (λ text. text.items ≡ note_of (map (λ part. part.now) parts.now)) }
{
    let mut text = Vec::from_slice(alloc, b"crp: note: ")?;
    for part in parts {
        text.extend_from_slice(part)?;
    }
    text.push(b'\n')?;
    Ok(text)
}

// How much of a name is shown, and what stands behind it.
fn shown(name: &[u8]) -> (&[u8], &'static [u8])
    ensures front { result.0.now ≡ take 35 name.now }
    ensures end { result.1.now ≡ (if nat_lt 35 (length name.now) then codes "\".." else codes "\"") }
{
    if name.len() > 35 {
        (&name[..35], b"\"..")
    } else {
        (name, b"\"")
    }
}

// Adds a name in quotes.
fn push_quoted(text: &mut Vec<u8>, name: &[u8]) -> Result<(), AllocError>
    ensures { OnOk result (text.new.items ≡ text.old.items ++ quoted name.now) }
{
    let (front, end) = shown(name);
    text.push(b'"')?;
    text.extend_from_slice(front)?;
    text.extend_from_slice(end)
}

// A name in quotes.
fn quoted(alloc: Global, name: &[u8]) -> Result<Vec<u8>, AllocError>
    ensures { IfOk result (λ text. text.items ≡ quoted name.now) }
{
    let mut text = Vec::new(alloc);
    push_quoted(&mut text, name)?;
    Ok(text)
}

// Adds words, each behind a comma.
fn push_others(text: &mut Vec<u8>, words: &[Vec<u8>]) -> Result<(), AllocError>
    ensures { OnOk result (text.new.items ≡ text.old.items ++ flat_map (λ other. codes ", " ++ other) (map (λ other. other.items) words.now)) }
{
    for other in words {
        text.extend_from_slice(b", ")?;
        text.extend_from_slice(other)?;
    }
    Ok(())
}

// Behind words, whether there are more.
fn others_words(more: bool) -> &'static [u8]
    ensures { result.now ≡ (if more then codes " and others" else []) }
{
    if more { b" and others" } else { b"" }
}

// Words with commas between them, and whether there are more.
fn joined(alloc: Global, words: &[Vec<u8>], more: bool) -> Result<Vec<u8>, AllocError>
    ensures { IfOk result (λ text. text.items ≡ joined (map (λ word. word.items) words.now) more) }
{
    let mut text = Vec::new(alloc);
    let [first, others @ ..] = words else {
        return Ok(text);
    };
    text.extend_from_slice(first)?;
    push_others(&mut text, others)?;
    text.extend_from_slice(others_words(more))?;
    Ok(text)
}

// Names in quotes with commas between them, and whether there are more.
fn listed(alloc: Global, names: &[&[u8]], more: bool) -> Result<Vec<u8>, AllocError>
    ensures { IfOk result (λ text. text.items ≡ listed (map (λ name. name.now) names.now) more) }
{
    let mut words = Vec::new(alloc);
    for name in names {
        words.push(quoted(alloc, name)?)?;
    }
    joined(alloc, &words, more)
}

// The first names, at most so many, and whether there are more.
fn first_listed(alloc: Global, names: &[&[u8]], most: usize) -> Result<Vec<u8>, AllocError>
    ensures { IfOk result (λ text. text.items ≡ listed (take most (map (λ name. name.now) names.now)) (nat_lt most (length names.now))) }
{
    let shown = names.len().min(most);
    listed(alloc, &names[..shown], shown < names.len())
}

/// A message says by this code of its BGM, in these words, that it is no original.
pub(crate) fn function_note(
    alloc: Global,
    message: usize,
    function: &[u8],
    words: &[u8],
) -> Result<Vec<u8>, AllocError>
    ensures { IfOk result (λ text. text.items ≡ function_note message function.now words.now) }
{
    let mut digits = Buffer::new();
    let function = quoted(alloc, function)?;
    let parts: [&[u8]; 6] = [
        b"message ",
        digits.format(message).as_bytes(),
        b" is no original, its BGM has function ",
        &function,
        words,
        b"; it is read as an order all the same, so check that it is to be loaded",
    ];
    note_of(alloc, parts.as_slice())
}

/// No container is ordered under the loading code, and the message has no handling code.
pub(crate) fn no_codes_note(alloc: Global, code: &[u8]) -> Result<Vec<u8>, AllocError>
    ensures { IfOk result (λ text. text.items ≡ no_codes_note code.now) }
{
    let code = quoted(alloc, code)?;
    let parts: [&[u8]; 3] = [
        b"no container is ordered under the handling code ",
        &code,
        b"; the message has no handling code",
    ];
    note_of(alloc, parts.as_slice())
}

/// No container is ordered under the loading code, and the message has these codes, and others if there are more.
pub(crate) fn codes_note(
    alloc: Global,
    code: &[u8],
    found: &[&[u8]],
    more: bool,
) -> Result<Vec<u8>, AllocError>
    ensures { IfOk result (λ text. text.items ≡ codes_note code.now (map (λ name. name.now) found.now) more) }
{
    let code = quoted(alloc, code)?;
    let found = listed(alloc, found, more)?;
    let parts: [&[u8]; 5] = [
        b"no container is ordered under the handling code ",
        &code,
        b"; the message has ",
        &found,
        b": choose with --code what is loaded, or look for LOC+147 and EQD+CN under it",
    ];
    note_of(alloc, parts.as_slice())
}

// Before the number of orders of a message.
fn message_words(alloc: Global, several: bool, message: usize) -> Result<Vec<u8>, AllocError>
    ensures { IfOk result (λ text. text.items ≡ (if several then codes "message " ++ (decimal message ++ codes ": ") else [])) }
{
    let mut text = Vec::new(alloc);
    if several {
        let mut digits = Buffer::new();
        text.extend_from_slice(b"message ")?;
        text.extend_from_slice(digits.format(message).as_bytes())?;
        text.extend_from_slice(b": ")?;
    }
    Ok(text)
}

// Behind the number of orders under another handling code.
fn orders_words(orders: usize) -> &'static [u8]
    ensures { result.now ≡ (if nat_lt 1 orders then codes " orders under the handling code " else codes " order under the handling code ") }
{
    if 1 < orders {
        b" orders under the handling code "
    } else {
        b" order under the handling code "
    }
}

// What they are not.
fn unread_words(orders: usize) -> &'static [u8]
    ensures { result.now ≡ (if nat_lt 1 orders then codes " are not read" else codes " is not read") }
{
    if 1 < orders {
        b" are not read"
    } else {
        b" is not read"
    }
}

/// So many orders stand under another handling code, of the message with this number where there are several.
pub(crate) fn unread_note(
    alloc: Global,
    several: bool,
    message: usize,
    code: &[u8],
    orders: usize,
) -> Result<Vec<u8>, AllocError>
    ensures { IfOk result (λ text. text.items ≡ unread_note several message code.now orders) }
{
    let mut digits = Buffer::new();
    let message = message_words(alloc, several, message)?;
    let code = quoted(alloc, code)?;
    let parts: [&[u8]; 6] = [
        &message,
        digits.format(orders).as_bytes(),
        orders_words(orders),
        &code,
        unread_words(orders),
        b": choose with --code what is loaded",
    ];
    note_of(alloc, parts.as_slice())
}

/// So many messages stand in one interchange, and their containers are mixed.
pub(crate) fn messages_note(alloc: Global, messages: usize) -> Result<Vec<u8>, AllocError>
    ensures { IfOk result (λ text. text.items ≡ messages_note messages) }
{
    let mut digits = Buffer::new();
    let parts: [&[u8]; 3] = [
        b"the interchange has ",
        digits.format(messages).as_bytes(),
        b" messages, and --order stowage mixes their containers: put each into a file of its own if they are for different ships",
    ];
    note_of(alloc, parts.as_slice())
}

// Behind a slot, the first two of the containers that are ordered to it.
fn containers_words(alloc: Global, names: &[&[u8]]) -> Result<Vec<u8>, AllocError>
    ensures { IfOk result (λ text. text.items ≡ containers_words (map (λ name. name.now) names.now)) }
{
    if names.is_empty() {
        return Ok(Vec::new(alloc));
    }
    let names = first_listed(alloc, names, 2)?;
    let mut text = Vec::from_slice(alloc, b" (")?;
    text.extend_from_slice(&names)?;
    text.push(b')')?;
    Ok(text)
}

/// A slot, and the first two of the containers that are ordered to it.
pub(crate) fn slot_words(alloc: Global, slot: &[u8], names: &[&[u8]]) -> Result<Vec<u8>, AllocError>
    ensures { IfOk result (λ text. text.items ≡ slot_words slot.now (map (λ name. name.now) names.now)) }
{
    let mut text = quoted(alloc, slot)?;
    let words = containers_words(alloc, names)?;
    text.extend_from_slice(&words)?;
    Ok(text)
}

/// So many orders name a slot that another order names too, these slots first.
pub(crate) fn slots_note(
    alloc: Global,
    count: usize,
    slots: &[Vec<u8>],
    more: bool,
) -> Result<Vec<u8>, AllocError>
    ensures { IfOk result (λ text. text.items ≡ slots_note count (map (λ slot. slot.items) slots.now) more) }
{
    let mut digits = Buffer::new();
    let slots = joined(alloc, slots, more)?;
    let parts: [&[u8]; 3] = [
        digits.format(count).as_bytes(),
        b" orders name a slot that another order names too: ",
        &slots,
    ];
    note_of(alloc, parts.as_slice())
}

// Behind the number of ordered containers that are not in the yard.
fn absent_words(count: usize) -> &'static [u8]
    ensures { result.now ≡ (if nat_lt 1 count then codes " ordered containers are not in the yard: " else codes " ordered container is not in the yard: ") }
{
    if 1 < count {
        b" ordered containers are not in the yard: "
    } else {
        b" ordered container is not in the yard: "
    }
}

/// So many ordered containers are not in the yard, these first.
pub(crate) fn absent_note(
    alloc: Global,
    count: usize,
    names: &[&[u8]],
    more: bool,
) -> Result<Vec<u8>, AllocError>
    ensures { IfOk result (λ text. text.items ≡ absent_note count (map (λ name. name.now) names.now) more) }
{
    let mut digits = Buffer::new();
    let names = listed(alloc, names, more)?;
    let parts: [&[u8]; 3] = [digits.format(count).as_bytes(), absent_words(count), &names];
    note_of(alloc, parts.as_slice())
}

/// An ordered container is like one that stands in the yard.
pub(crate) fn alike_note(
    alloc: Global,
    ordered: &[u8],
    standing: &[u8],
) -> Result<Vec<u8>, AllocError>
    ensures { IfOk result (λ text. text.items ≡ alike_note ordered.now standing.now) }
{
    let ordered = quoted(alloc, ordered)?;
    let standing = quoted(alloc, standing)?;
    let parts: [&[u8]; 4] = [
        &ordered,
        b" differs from ",
        &standing,
        b" in the yard by blanks, dashes or small letters alone: write both alike",
    ];
    note_of(alloc, parts.as_slice())
}

// A bay by its name.
fn bay_name(alloc: Global, bay: &BayName) -> Result<Vec<u8>, AllocError>
    ensures { IfOk result (λ text. text.items ≡ bay_name bay.now) }
{
    let mut digits = Buffer::new();
    let mut text = Vec::from_slice(alloc, bay.block())?;
    text.push(b' ')?;
    text.extend_from_slice(digits.format(bay.bay()).as_bytes())?;
    Ok(text)
}

// The same with the word before it.
pub(crate) fn bay_words(alloc: Global, bay: &BayName) -> Result<Vec<u8>, AllocError>
    ensures { IfOk result (λ text. text.items ≡ bay_words bay.now) }
{
    let name = bay_name(alloc, bay)?;
    let mut text = Vec::from_slice(alloc, b"bay ")?;
    text.extend_from_slice(&name)?;
    Ok(text)
}

/// The words name this reference, and no message has it.
pub(crate) fn unknown_message_note(alloc: Global, reference: &[u8]) -> Result<Vec<u8>, AllocError>
    ensures { IfOk result (λ text. text.items ≡ unknown_message_note reference.now) }
{
    let reference = quoted(alloc, reference)?;
    let parts: [&[u8]; 3] = [
        b"no message has the reference ",
        &reference,
        b", which --message names",
    ];
    note_of(alloc, parts.as_slice())
}

/// The words name this bay, and the yard has it not.
pub(crate) fn unknown_bay_note(alloc: Global, bay: &BayName) -> Result<Vec<u8>, AllocError>
    ensures { IfOk result (λ text. text.items ≡ unknown_bay_note bay.now) }
{
    let bay = bay_words(alloc, bay)?;
    let parts: [&[u8]; 3] = [b"the yard list has no ", &bay, b", which --bay names"];
    note_of(alloc, parts.as_slice())
}

// Which bays are so.
fn which_words(alloc: Global, first: &BayName, bays: usize) -> Result<Vec<u8>, AllocError>
    ensures { IfOk result (λ text. text.items ≡ which_words first.now bays) }
{
    if bays <= 1 {
        let mut text = bay_words(alloc, first)?;
        text.extend_from_slice(b" is")?;
        return Ok(text);
    }
    let mut digits = Buffer::new();
    let name = bay_name(alloc, first)?;
    let mut text = Vec::from_slice(alloc, digits.format(bays).as_bytes())?;
    text.extend_from_slice(b" bays (")?;
    text.extend_from_slice(&name)?;
    text.extend_from_slice(b" is the first) are")?;
    Ok(text)
}

/// So many bays of these heights, of which this one is the first, are planned with places beyond this row or this tier.
pub(crate) fn beyond_note(
    alloc: Global,
    heights: &[u8],
    first: &BayName,
    bays: usize,
    row: u8,
    tier: usize,
) -> Result<Vec<u8>, AllocError>
    ensures { IfOk result (λ text. text.items ≡ beyond_note heights.now first.now bays row tier) }
{
    let (mut last, mut top, mut all) = (Buffer::new(), Buffer::new(), Buffer::new());
    let which = which_words(alloc, first, bays)?;
    let tiers = tiers_words(alloc, heights)?;
    let parts: [&[u8]; 10] = [
        &which,
        b" planned with ",
        all.format(heights.len()).as_bytes(),
        b" rows of ",
        &tiers,
        b", and nothing stands beyond row ",
        last.format(row).as_bytes(),
        b" or tier ",
        top.format(tier).as_bytes(),
        b": look at --sizes",
    ];
    note_of(alloc, parts.as_slice())
}

// What is so of bays that the list of sizes leaves out.
fn unlisted_words(bays: usize) -> &'static [u8]
    ensures { result.now ≡ (if nat_lt 1 bays then codes ", since --sizes does not list them; the bays of their block that are listed all hold more containers, or all hold fewer"
        else codes ", since --sizes does not list it; the bays of its block that are listed all hold more containers, or all hold fewer") }
{
    if 1 < bays {
        b", since --sizes does not list them; the bays of their block that are listed all hold more containers, or all hold fewer"
    } else {
        b", since --sizes does not list it; the bays of its block that are listed all hold more containers, or all hold fewer"
    }
}

/// So many bays, of which this one is the first, are left out by the list of sizes, and so taken to have rows of these heights.
pub(crate) fn unlisted_note(
    alloc: Global,
    heights: &[u8],
    first: &BayName,
    bays: usize,
) -> Result<Vec<u8>, AllocError>
    ensures { IfOk result (λ text. text.items ≡ unlisted_note heights.now first.now bays) }
{
    let mut all = Buffer::new();
    let which = which_words(alloc, first, bays)?;
    let tiers = tiers_words(alloc, heights)?;
    let parts: [&[u8]; 6] = [
        &which,
        b" taken to have ",
        all.format(heights.len()).as_bytes(),
        b" rows of ",
        &tiers,
        unlisted_words(bays),
    ];
    note_of(alloc, parts.as_slice())
}

/// A bay is left open, for this reason.
pub(crate) fn open_note(alloc: Global, bay: &BayName, advice: &[u8]) -> Result<Vec<u8>, AllocError>
    ensures { IfOk result (λ text. text.items ≡ open_note bay.now advice.now) }
{
    let bay = bay_words(alloc, bay)?;
    let parts: [&[u8]; 3] = [&bay, b" is left open, since ", advice];
    note_of(alloc, parts.as_slice())
}

/// A bay has no plan.
pub(crate) fn no_plan_note(alloc: Global, bay: &BayName) -> Result<Vec<u8>, AllocError>
    ensures { IfOk result (λ text. text.items ≡ no_plan_note bay.now) }
{
    let bay = bay_words(alloc, bay)?;
    let parts: [&[u8]; 2] = [
        &bay,
        b" has no plan, since its rows and tiers leave no room to reach what is ordered: if it has more, say so by --rows, --tiers, --heights or --sizes, or choose another order of leaving by --order",
    ];
    note_of(alloc, parts.as_slice())
}

/// With this bay the certificates have more than so many bytes.
pub(crate) fn size_note(alloc: Global, largest: usize, bay: &BayName) -> Result<Vec<u8>, AllocError>
    ensures { IfOk result (λ text. text.items ≡ size_note largest bay.now) }
{
    let mut most = Buffer::new();
    let bay = bay_words(alloc, bay)?;
    let parts: [&[u8]; 5] = [
        b"with ",
        &bay,
        b" the certificates have more than ",
        most.format(largest).as_bytes(),
        b" bytes, which crp check takes with --any-size alone",
    ];
    note_of(alloc, parts.as_slice())
}

// Behind the number of ordered containers that a report does not take.
fn left_words(count: usize) -> &'static [u8]
    ensures { result.now ≡ (if nat_lt 1 count then codes " ordered containers: " else codes " ordered container: ") }
{
    if 1 < count {
        b" ordered containers: "
    } else {
        b" ordered container: "
    }
}

/// A report does not take these ordered containers of a bay.
pub(crate) fn left_note(
    alloc: Global,
    bay: &BayName,
    names: &[&[u8]],
) -> Result<Vec<u8>, AllocError>
    ensures { IfOk result (λ text. text.items ≡ left_note bay.now (map (λ name. name.now) names.now)) }
{
    let mut digits = Buffer::new();
    let bay = bay_words(alloc, bay)?;
    let listed = first_listed(alloc, names, MAX_LISTED)?;
    let parts: [&[u8]; 5] = [
        &bay,
        b": the report does not take ",
        digits.format(names.len()).as_bytes(),
        left_words(names.len()),
        &listed,
    ];
    note_of(alloc, parts.as_slice())
}

// Behind the number of containers that a message orders.
fn loaded_words(sequenced: usize) -> &'static [u8]
    ensures { result.now ≡ (if sequenced == 1 then codes " container, and --loaded says " else codes " containers, and --loaded says ") }
{
    if sequenced == 1 {
        b" container, and --loaded says "
    } else {
        b" containers, and --loaded says "
    }
}

/// So many containers are said to be loaded, and fewer are ordered.
pub(crate) fn loaded_note(
    alloc: Global,
    loaded: u64,
    sequenced: usize,
) -> Result<Vec<u8>, AllocError>
    ensures { IfOk result (λ text. text.items ≡ loaded_note loaded sequenced) }
{
    let (mut says, mut orders) = (Buffer::new(), Buffer::new());
    let parts: [&[u8]; 5] = [
        b"the message orders ",
        orders.format(sequenced).as_bytes(),
        loaded_words(sequenced),
        says.format(loaded).as_bytes(),
        b": all moves up to the last of them are made",
    ];
    note_of(alloc, parts.as_slice())
}

/// So many notes are left out.
pub(crate) fn more_note(alloc: Global, count: u64) -> Result<Vec<u8>, AllocError>
    ensures { IfOk result (λ text. text.items ≡ more_note count) }
{
    let mut digits = Buffer::new();
    let parts: [&[u8]; 2] = [
        digits.format(count).as_bytes(),
        b" more notes are not shown",
    ];
    note_of(alloc, parts.as_slice())
}
