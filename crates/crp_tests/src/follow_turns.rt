//! `follow` over devices of which each call fails in turn, and over a report that never ends.
use crate::calls::follow;
use crate::compare::assert_same_at;
use crate::devices::{Busy, Endless, Slow, Small};
use crp_commands::{FollowSettings, Listed, TextFiles};
use crp_follow::{FollowFault, Part};
use crp_jobs::{Statement, ToolFault};
use crp_order::Mode;
use crp_plan::{Sink, Source};
use crp_report::{Fault, Input, InputSettings, Output, Status};
use std::alloc::Global;
use std::test::Fail;

const LIST: &[u8] = b"block,bay,row,tier,container\nB,2,1,1,X\nB,2,1,2,Y\n";

const REPORT: &[u8] =
    b"orders 1 open 0 absent 0\nbay B 2: optimal 1\nshift 1.2 2.1 Y\ntake 1.1 X\nbays 1 decided 1\n";

const TABLE: &[u8] =
    b"block,bay,step,move,container,from_row,from_tier,to_row,to_tier,leaves,for,left\n\
        B,2,1,shift,Y,1,2,2,1,,X,2\n\
        B,2,2,take,X,1,1,,,2,X,1\n";

const LEFT: &[u8] = b"block,bay,row,tier,container\nB,2,2,1,Y\n";

const MESSAGE: &[u8] = b"UNB+UNOA:1+YARD+SHIP+250101:0800+1'UNH+1+MOVINS:D:95B:UN'BGM++8+9'HAN+LOA'\
        LOC+147+0010182'EQD+CN+X'UNT+6+1'UNZ+1+1'";

const LOADED: &[u8] =
    b"block,bay,step,move,container,from_row,from_tier,to_row,to_tier,leaves,for,left,order,slot\n\
        B,2,1,shift,Y,1,2,2,1,,X,2,1,\n\
        B,2,2,take,X,1,1,,,2,X,1,1,0010182\n";

// More room than the table needs, and than the page.
const ROOM: usize = 1000;

const PAGE_ROOM: usize = 100000;

// How a call ended, and what its sinks hold then.
#[derive(Drop)]
struct Ended {
    answer: Result<Status, ToolFault>,
    page: Vec<u8>,
    list: Vec<u8>,
    held: Vec<u8>,
}

fn small(alloc: Global, room: usize) -> Small {
    Small {
        bytes: Vec::new(alloc),
        room,
        failed: 0,
    }
}

// How this part of a report is followed over a yard of three rows of three tiers, with a message where one is given, and sinks of the page, of
// the list of the yard behind the moves, where they are asked for, and of the table.
fn followed_to<R: Source, P: Sink, W: Sink>(
    alloc: Global,
    listed: (Slow<'_>, Option<Slow<'_>>),
    report: &mut R,
    asked: (&Part<'_>, bool, bool),
    files: &mut TextFiles<P, Small>,
    out: &mut W,
) -> Result<Result<Status, ToolFault>, Fail> {
    let input = InputSettings::new(alloc, 3, 3, Mode::Listed, b"LOA")?;
    let (yard, message) = listed;
    let (part, page, list) = asked;
    let settings = FollowSettings {
        input: &input,
        part,
        ship: message.is_some(),
        page,
        list,
        loaded: None,
        partial: false,
        summary: false,
        separator: b',',
    };
    let mut listed = Listed {
        yard,
        movins: message.unwrap_or(whole(b"")),
    };
    Ok(follow(alloc, &mut listed, report, &settings, files, out))
}

// The same, with sinks that have so much room; without room for a page, or for a list, none is asked for.
fn followed<R: Source + Drop>(
    alloc: Global,
    listed: (Slow<'_>, Option<Slow<'_>>),
    mut report: R,
    rooms: (Option<usize>, Option<usize>),
    room: usize,
) -> Result<Ended, Fail> {
    let (page_room, list_room) = rooms;
    let mut files = TextFiles {
        page: small(alloc, page_room.unwrap_or(PAGE_ROOM)),
        list: small(alloc, list_room.unwrap_or(ROOM)),
    };
    let mut out = small(alloc, room);
    let part = Part::new(Vec::new(alloc), Vec::new(alloc));
    let answer = followed_to(
        alloc,
        listed,
        &mut report,
        (&part, page_room.is_some(), list_room.is_some()),
        &mut files,
        &mut out,
    )?;
    Ok(Ended {
        answer,
        page: files.page.bytes,
        list: files.list.bytes,
        held: out.bytes,
    })
}

// The same over the list and the report, without a message, and with a page that has so much room, if one is asked for.
fn paged(alloc: Global, page_room: Option<usize>, room: usize) -> Result<Ended, Fail> {
    followed(
        alloc,
        (whole(LIST), None),
        whole(REPORT),
        (page_room, None),
        room,
    )
}

// The same with a message, and without a page.
fn loaded(alloc: Global, message: Slow<'_>, room: usize) -> Result<Ended, Fail> {
    followed(
        alloc,
        (whole(LIST), Some(message)),
        whole(REPORT),
        (None, None),
        room,
    )
}

fn front(text: &[u8], length: usize) -> &[u8] {
    text.get(..length).unwrap_or(text)
}

// So many bytes of a text, one by one; then it ends, or fails.
fn slow(text: &[u8], given: usize, fails: bool) -> Slow<'_> {
    Slow {
        interrupted: 0,
        rest: front(text, given),
        fails,
        failed: 0,
    }
}

fn whole(text: &[u8]) -> Slow<'_> {
    slow(text, text.len(), false)
}

// The page of the report.
fn whole_page(alloc: Global) -> Result<Vec<u8>, Fail> {
    let got = paged(alloc, Some(PAGE_ROOM), ROOM)?;
    Ok(got.page)
}

#[test]
fn each_write_of_a_table_fails_in_turn(rt: HostRuntime) -> Result<(), Fail> {
    let page = whole_page(rt.alloc())?;
    for room in 0..TABLE.len() + 1 {
        let answer = if room < TABLE.len() {
            Err(ToolFault::WriteTable)
        } else {
            Ok(Status::Decided)
        };
        let got = paged(rt.alloc(), None, room)?;
        assert_same_at(&rt, &got.answer, &answer, &room);
        assert_same_at(&rt, &got.held.as_slice(), &front(TABLE, room), &room);
        assert_same_at(&rt, &got.page.len(), &0, &room);
        let beside = paged(rt.alloc(), Some(PAGE_ROOM), room)?;
        assert_same_at(&rt, &beside.answer, &answer, &room);
        assert_same_at(&rt, &beside.held.as_slice(), &front(TABLE, room), &room);
        assert_same_at(&rt, &beside.page.as_slice(), &page.as_slice(), &room);
    }
    Ok(())
}

#[test]
fn writes_of_a_page_fail_in_turn(rt: HostRuntime) -> Result<(), Fail> {
    let page = whole_page(rt.alloc())?;
    for part in 0..80 {
        let room = 101 * part;
        let got = paged(rt.alloc(), Some(room), ROOM)?;
        assert_same_at(&rt, &got.answer, &Err(ToolFault::WritePage), &room);
        assert_same_at(&rt, &got.page.as_slice(), &front(&page, room), &room);
        assert_same_at(&rt, &got.held.len(), &0, &room);
    }
    let room = page.len();
    let got = paged(rt.alloc(), Some(room.saturating_sub(1)), ROOM)?;
    assert_same_at(&rt, &got.answer, &Err(ToolFault::WritePage), &room);
    let got = paged(rt.alloc(), Some(room), ROOM)?;
    assert_same_at(&rt, &got.answer, &Ok(Status::Decided), &room);
    Ok(())
}

#[test]
fn writes_of_a_list_fail_in_turn(rt: HostRuntime) -> Result<(), Fail> {
    let page = whole_page(rt.alloc())?;
    for room in 0..LEFT.len() + 1 {
        let rooms = (Some(PAGE_ROOM), Some(room));
        let got = followed(rt.alloc(), (whole(LIST), None), whole(REPORT), rooms, ROOM)?;
        let (answer, table) = if room < LEFT.len() {
            let fault = Fault::Write(Output::YardAfter);
            (Err(ToolFault::Run(fault)), b"".as_slice())
        } else {
            (Ok(Status::Decided), TABLE)
        };
        assert_same_at(&rt, &got.answer, &answer, &room);
        assert_same_at(&rt, &got.page.as_slice(), &page.as_slice(), &room);
        assert_same_at(&rt, &got.list.as_slice(), &front(LEFT, room), &room);
        assert_same_at(&rt, &got.held.as_slice(), &table, &room);
    }
    Ok(())
}

#[test]
fn a_page_and_a_table_share_a_thousand_interruptions(rt: HostRuntime) -> Result<(), Fail> {
    let cases: [(u32, u32, Result<Status, ToolFault>); 4] = [
        (1000, 0, Ok(Status::Decided)),
        (1001, 0, Err(ToolFault::WritePage)),
        (600, 400, Ok(Status::Decided)),
        (600, 401, Err(ToolFault::WriteTable)),
    ];
    for (of_page, of_table, answer) in &cases {
        let page = Busy {
            interrupted: *of_page,
            failed: 0,
        };
        let list = small(rt.alloc(), ROOM);
        let mut out = Busy {
            interrupted: *of_table,
            failed: 0,
        };
        let part = Part::new(Vec::new(rt.alloc()), Vec::new(rt.alloc()));
        let got = followed_to(
            rt.alloc(),
            (whole(LIST), None),
            &mut whole(REPORT),
            (&part, true, false),
            &mut TextFiles { page, list },
            &mut out,
        )?;
        assert_same_at(&rt, &got, answer, of_table);
    }
    Ok(())
}

#[test]
fn each_read_of_a_followed_report_fails_in_turn(rt: HostRuntime) -> Result<(), Fail> {
    for given in 0..REPORT.len() + 1 {
        let report = slow(REPORT, given, true);
        let listed = (whole(LIST), None);
        let got = followed(rt.alloc(), listed, report, (Some(PAGE_ROOM), None), ROOM)?;
        let answer = Err(ToolFault::ReadOf(Statement::Report));
        assert_same_at(&rt, &got.answer, &answer, &given);
        assert_same_at(&rt, &got.held.len(), &0, &given);
        assert_same_at(&rt, &got.page.len(), &0, &given);
    }
    for given in 0..LIST.len() + 1 {
        let list = slow(LIST, given, true);
        let rooms = (Some(PAGE_ROOM), None);
        let got = followed(rt.alloc(), (list, None), whole(REPORT), rooms, ROOM)?;
        let answer = Err(ToolFault::Run(Fault::Read(Input::Yard)));
        assert_same_at(&rt, &got.answer, &answer, &given);
        assert_same_at(&rt, &got.held.len(), &0, &given);
        assert_same_at(&rt, &got.page.len(), &0, &given);
    }
    Ok(())
}

#[test]
fn reads_of_a_message_and_writes_of_its_table_fail_in_turn(rt: HostRuntime) -> Result<(), Fail> {
    for given in 0..MESSAGE.len() + 1 {
        let got = loaded(rt.alloc(), slow(MESSAGE, given, true), ROOM)?;
        let answer = Err(ToolFault::Run(Fault::Read(Input::Movins)));
        assert_same_at(&rt, &got.answer, &answer, &given);
        assert_same_at(&rt, &got.held.len(), &0, &given);
    }
    for room in 0..LOADED.len() + 1 {
        let answer = if room < LOADED.len() {
            Err(ToolFault::WriteTable)
        } else {
            Ok(Status::Decided)
        };
        let got = loaded(rt.alloc(), whole(MESSAGE), room)?;
        assert_same_at(&rt, &got.answer, &answer, &room);
        assert_same_at(&rt, &got.held.as_slice(), &front(LOADED, room), &room);
        assert_same_at(&rt, &got.page.len(), &0, &room);
    }
    Ok(())
}

#[test]
fn a_report_that_never_ends(rt: HostRuntime) -> Result<(), Fail> {
    let listed = (whole(LIST), None);
    let got = followed(rt.alloc(), listed, Endless, (Some(PAGE_ROOM), None), ROOM)?;
    let answer = Err(ToolFault::Followed(FollowFault::TooLong));
    assert_same_at(&rt, &got.answer, &answer, &ROOM);
    assert_same_at(&rt, &got.held.len(), &0, &ROOM);
    assert_same_at(&rt, &got.page.len(), &0, &ROOM);
    Ok(())
}
