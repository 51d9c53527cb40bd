//! What no clause says: which word is the first wrong one, what comes of an answer that can't be put, and what is told of a WAD that is read
//! once more. What the program answers, and its exit codes, are stored beside `run_orders`.

use order_words::read_words;
use program::answers::{Question, answer};
use program::places::{TextPlace, WadAgain, place_in};
use program::progress::Progress;
use program::usage::{Fault, diagnose};
use shelf_io::MemSink;
use sight_names::OrderFault;
use sight_run::{Bound, Fate, Notice, Status, code};
use std::alloc::{AllocError, Global};
use std::test::Fail;
use worked_maps::stages::{stage_of, words_in};

/// Words, and the number of the first wrong one, the name of the one that is missing, or `-` where they are an order. The word `''`
/// is empty.
const WORDS: &str = "\
 | VERB
paint a MAP01 b | 1
'' a | 1
- a | 1
zero | WAD
zero a MAP01 | OUT
zero a MAP01 b | -
zero a MAP01 a | -
zero a map01 b | -
zero a MAP01 b c | 5
zero '' MAP01 b | 2
zero a '' b | 3
zero a MAP000001 b | 3
zero a MAP01 '' | 4
zero a MAP01 b --cert c | 5
zero a MAP01 b --large | -
--large zero a MAP01 b | -
zero a MAP01 b --large --large | 6
zero a MAP01 b --large=true | 5
zero a MAP01 b --large= | 5
zero a -- MAP01 --large | -
zero a MAP01 b --hexen --large | 5
zero --cert | 2
zero a MAP01 b -h | 5
zero --help a MAP01 b | 2
zero a MAP01 -5 | 4
zero a MAP01 - | -
zero - MAP01 b | -
zero -- a MAP01 b | -
-- zero a MAP01 b | -
zero a -- MAP01 --cert | -
zero a MAP01 -- -- | -
zero a MAP01 b -- | -
zero a MAP01 b -- c | 6
--help | 1
--version | 1
audit a MAP01 | -
audit a MAP01 b | 4
audit --large a MAP01 | -
audit a MAP01 --large b | 5
audit a MAP01 --report r --large | -
audit a MAP01 --report r --json | -
audit --json a MAP01 | --report
audit --json a | MAP
--report=r audit a MAP01 | -
audit a MAP01 --report r --report c | 6
audit a MAP01 --report '' | 5
audit a MAP01 --cert c | 4
audit a MAP01 --large --budget 1 | 5
need a | MAP
need a MAP01 --large | -
need a MAP01 --budget enough | 4
check a MAP01 c | -
check a MAP01 '' | 4
check a MAP01 c --large | -
ray a MAP01 2R,2L,0,1,-32 | -
ray a MAP01 2R,2L,0,1 | 4
ray a MAP01 65536R,2L,0,1,-32 | 4
ray a MAP01 2R,2L,0,1,-32 --large | -
trace a MAP01 2R,5L,0,1,0 | -
trace a MAP01 2R,5L,0,1,0 --large | -
trace a MAP01 | RAY
sound a MAP01 | -
sound a MAP01 0 | B
sound a MAP01 0 1 | -
sound a MAP01 --large 0 1 | -
sound a MAP01 --large | -
sound a MAP01 0 65536 | 5
sound a MAP01 000000 1 | 4
sound a MAP01 0 1 2 | 6
why a MAP01 0 1 | -
why a MAP01 0 1 --budget full --large | -
why a MAP01 0 | B
why a MAP01 | A
why a MAP01 0 65536 | 5
why a MAP01 0 1 2 | 6
why a MAP01 0 1 --workers 2 | 6
why a MAP01 0 1 --faults | 6
why a MAP01 0 1 --exact | -
why --exact --large a MAP01 0 1 | -
why a MAP01 0 --exact | B
why a MAP01 0 1 --exact --budget full | 7
why a MAP01 0 1 --budget=5 --exact | 7
draw a MAP01 | OUT
draw a MAP01 b | -
draw a MAP01 b --faults --large | -
draw --faults a MAP01 b | -
draw a MAP01 b --faults=1 | 5
draw a MAP01 b 0 | -
draw a MAP01 b 65536 | 5
draw a MAP01 b 0 1 | -
draw a MAP01 b 0 1 --budget full --large | -
draw a MAP01 b 0 1 2 | 7
draw a MAP01 b 0 1 --workers 2 | 7
draw a MAP01 b --budget 5 | A
draw a MAP01 b 0 --budget 5 | B
draw --budget 5 a MAP01 b 0 1 | -
draw --faults a MAP01 b 0 | 6
draw a MAP01 b 0 --faults | 6
draw a MAP01 b --faults --budget 5 | 6
draw a MAP01 b 0 1 --exact | -
draw --exact a MAP01 b 0 1 --large | -
draw a MAP01 b --exact | A
draw a MAP01 b 0 --exact | B
draw a MAP01 b --faults --exact | 6
draw a MAP01 --exact b --faults | 6
draw a MAP01 b 0 1 --exact --budget 5 | 8
draw a MAP01 b 0 1 --budget 5 --exact | 9
--faults --budget 5 | 2
--faults zero | 2
--faults grid | 2
--report r why | 3
build a MAP01 b --cert c --report r --budget full --workers 8 | -
build a MAP01 b --cert c --report r --budget full --workers 8 --large | -
build a MAP01 b --large c | 6
--report r build a --cert=c MAP01 --workers=64 b --budget=enough | -
build a MAP01 b --cert | FILE
build a MAP01 b --cert= | 5
build a MAP01 b --cert '' | 6
build a MAP01 b --cert --report r | 6
build a MAP01 b --cert -- r | 6
build a MAP01 b --cert - | -
build a MAP01 b --cert c --cert d | 7
build a MAP01 b --cert=c --cert=d | 6
build a MAP01 b --cer c | 5
build a MAP01 b --cert=--report | -
build a MAP01 b -c | 5
build a MAP01 b --=c | 5
build a MAP01 b --budget 0 | 6
build a MAP01 b --budget=4294967296 | -
build a MAP01 b --budget 4294967297 | 6
build a MAP01 b --exact | -
build a MAP01 b --exact --cert c --report r --workers 8 --large | -
--exact build a MAP01 b | -
build a MAP01 b --exact=1 | 5
build a MAP01 b --exact --exact | 6
build a MAP01 b --exact --budget 5 | 6
build a MAP01 b --budget 5 --exact | 7
--exact --budget 5 | 2
--exact why | WAD
--exact draw | WAD
--exact zero | 2
--exact --faults | 2
check a MAP01 c --exact | 5
all a b --exact | -
all a b --only MAP01 --exact --report r | -
all a b --exact --budget full | 5
all a b --refused clear | -
all a b --refused=stop --only MAP01 | -
all a b --refused | HOW
all a b --refused never | 5
all a b --refused keep --refused stop | 6
build a MAP01 b --refused clear | 5
grid 4 --exact | -
grid 4 --exact --hexen --workers 1 | -
build a MAP01 b --workers 0 | 6
build a MAP01 b --workers 65 | 6
build a MAP01 b --hexen | 5
--hexen build a MAP01 b | 2
--hexen --cert c grid 2 | 2
--cert c --hexen | 3
--cert c grid 2 | 3
--report r grid 2 | 3
--report r all a b | -
all a b | -
all a | OUT
all a b --cert c | 4
all a --only | MAP,MAP
check a MAP01 | CERT
verify | WAD
verify a | -
verify a --large --only MAP01,MAP02 --report r --workers 8 | -
--json verify a --report r | -
verify a --json | --report
verify a --json=true --report r | 3
verify a --json --report r --json | 6
--report=r verify a | -
verify a b | 3
verify '' | 2
verify a --exact | 3
verify a --budget full | 3
verify a --cert c | 3
verify a --refused keep | 3
verify a --only MAP01, | 4
verify a --workers 65 | 4
--exact verify | 2
maps | WAD
maps a | -
maps a --large --only MAP01,MAP02 --report r | -
maps a --json --report=r | -
maps a --report r --json --workers 4 | 6
maps a --json --report | FILE
--report=r maps a | -
maps a b | 3
maps '' | 2
maps a --exact | 3
maps a --budget full | 3
maps a --cert c | 3
maps a --refused keep | 3
maps a --workers 4 | 3
maps a --only MAP01, | 4
--exact maps | 2
grid | N
help | 1
-V | 1
all a b --large | -
all a b --large --only MAP01,MAP02 --report r | -
all a b --report r --json --exact | -
all a b --json --only MAP01 | --report
build a MAP01 b --report r --json | 7
--json build a MAP01 b | 2
--json --cert c | 2
check a MAP01 c --json | -
--json check a MAP01 | CERT
check a MAP01 c --json --report r | 6
check a MAP01 c --json --large --json | 7
check a MAP01 c --json=true | 5
zero a MAP01 b --json | 5
draw a MAP01 b --json | 5
grid 2 --json | 3
--json | VERB
all a b --only map01,MAP02 | -
all a b --only=MAP01 | -
all a b --only MAP01, | 5
all a b --only ,MAP01 | 5
all a b --only '' | 5
all a b --only MAP000001 | 5
all a b --only MAP01 --only MAP02 | 6
--only MAP01 build a MAP01 b | 3
--only MAP01 --cert c | 3
all a MAP01 b | 4
grid 2 | -
grid 18 --hexen --workers 1 --budget 1 | -
grid 19 | 2
grid +2 | 2
grid 2 3 | 3
grid 2 --hexen=true | 3
grid 2 --hexen= | 3
grid 2 --hexen --hexen | 4
grid --report r 2 | 2
grid --budget | N|full|enough
grid 2 --large | 3
--large grid 2 | 2
--large --hexen | 2
";

/// Words that are put together in every way.
static SOME: [&str; 14] = [
    "build",
    "draw",
    "grid",
    "sound",
    "MAP01",
    "2",
    "--cert",
    "--budget=full",
    "--hexen",
    "--large",
    "--faults",
    "--exact",
    "--",
    "-x",
];

fn parts_of(row: &str) -> (&str, &str) {
    row.split_once('|').unwrap_or((row, ""))
}

fn words_of(alloc: Global, line: &str) -> Result<Vec<String>, AllocError> {
    let mut words = words_in(alloc, line)?;
    for word in words.iter_mut() {
        if word.as_str() == "''" {
            word.clear();
        }
    }
    Ok(words)
}

// What is said of the words, as the rows have it. Whether that is that they are an order is what `read_words` says.
fn said_of(alloc: Global, words: &[String]) -> Result<String, OrderFault> {
    let fault = diagnose(words).fault;
    let is_order = match read_words(alloc, words) {
        Ok(_) => true,
        Err(OrderFault::Usage) => false,
        Err(OrderFault::Memory(ref memory)) => return Err(OrderFault::Memory(*memory)),
    };
    let said = match fault {
        None if is_order => String::from_str(alloc, "-")?,
        Some(Fault::Missing(name)) if !is_order => String::from_str(alloc, name)?,
        Some(Fault::Word { at, .. }) if !is_order => at.saturating_add(1).to_string(alloc)?,
        _ => String::from_str(alloc, "unlike read_words")?,
    };
    Ok(said)
}

// Whether what is said of a row's words is what it has.
fn is_said(alloc: Global, row: &str) -> Result<bool, OrderFault> {
    let (line, wanted) = parts_of(row);
    let words = words_of(alloc, line)?;
    let said = said_of(alloc, &words)?;
    Ok(said.as_str() == wanted.trim())
}

#[test]
fn the_first_wrong_word_is_told(rt: HostRuntime) -> Result<(), Fail> {
    for row in WORDS.lines() {
        if !is_said(rt.alloc(), row)? {
            return Err(row.into());
        }
    }
    Ok(())
}

// The list of so many of these words that has this number.
fn words_numbered(alloc: Global, count: usize, number: usize) -> Result<Vec<String>, AllocError> {
    let mut words = Vec::new(alloc);
    let mut left = number;
    for _ in 0..count {
        words.push(String::from_str(alloc, SOME[left % 14])?)?;
        left /= 14;
    }
    Ok(words)
}

// Whether so many words, the list that has this number, are an order; nothing where what is said of them is unlike that.
fn is_order(alloc: Global, count: usize, number: usize) -> Result<Option<bool>, OrderFault> {
    let words = words_numbered(alloc, count, number)?;
    let said = said_of(alloc, &words)?;
    match said.as_str() {
        "unlike read_words" => Ok(None),
        said => Ok(Some(said == "-")),
    }
}

// How many of so many lists of words are orders; the fault is the number of one of which something else is said.
fn orders_in(alloc: Global, count: usize, lists: usize) -> Result<u32, Fail> {
    let mut orders = 0u32;
    for number in 0..lists {
        match is_order(alloc, count, number)? {
            Some(is_order) => orders = orders.saturating_add(u32::from(is_order)),
            None => return Err(number.into()),
        }
    }
    Ok(orders)
}

#[test]
fn what_is_no_order_has_a_wrong_word(rt: HostRuntime) -> Result<(), Fail> {
    let alloc = rt.alloc();
    let few = orders_in(alloc, 1, 14)?.saturating_add(orders_in(alloc, 2, 196)?);
    let more = orders_in(alloc, 3, 2_744)?.saturating_add(orders_in(alloc, 4, 38_416)?);
    assert!(rt; few > 0 && more > 0);
    Ok(())
}

// Whether the answer ends with a write fault where its third piece can't be put.
fn is_fault(alloc: Global, question: &Question) -> Result<bool, AllocError> {
    let mut broken = MemSink::new(alloc, vec![in alloc; 2]?);
    Ok(code(&answer(&mut broken, question)) == 5)
}

#[test]
fn an_answer_that_cannot_be_put_is_a_write_fault(rt: HostRuntime) -> Result<(), Fail> {
    let alloc = rt.alloc();
    assert!(rt; is_fault(alloc, &Question::Version)? && is_fault(alloc, &Question::Help(None))?);
    Ok(())
}

// Whether a refusal is noted as one by a map's size exactly where it is wanted.
fn is_noted<P: Print + Drop>(err: P, alloc: Global, refusal: Status, wanted: bool) -> bool {
    let progress = Progress::new(err, alloc, false);
    progress.refuse("", refusal, &Fate::KeptClear);
    progress.has_refused_size() == wanted
}

#[test]
fn a_map_that_is_refused_for_its_size_is_noted(rt: HostRuntime) -> Result<(), Fail> {
    assert!(rt;
        is_noted(rt.stderr(), rt.alloc(), Status::Limit(Bound::Points), true)
            && is_noted(rt.stderr(), rt.alloc(), Status::Limit(Bound::Lines), true)
            && is_noted(rt.stderr(), rt.alloc(), Status::Limit(Bound::Sectors), true)
            && is_noted(rt.stderr(), rt.alloc(), Status::Limit(Bound::Lumps), false)
            && is_noted(rt.stderr(), rt.alloc(), Status::SameName, false)
    );
    Ok(())
}

#[test]
fn a_byte_of_a_text_has_a_row_and_a_column(rt: HostRuntime) -> Result<(), Fail> {
    for (at, row, column) in [
        (0, 1, 1),
        (2, 1, 3),
        (3, 2, 1),
        (4, 3, 1),
        (6, 3, 3),
        (9, 3, 3),
    ] {
        assert!(rt; place_in(b"ab\n\ncd", at) == TextPlace { row, column });
    }
    Ok(())
}

#[test]
fn a_byte_is_found_in_the_text_of_its_map(rt: HostRuntime) -> Result<(), Fail> {
    let mut stage = stage_of(rt.alloc(), "a=PAIR +6:MAP02 +7:TEXTMAP =0a0a62 +8:ENDMAP")?;
    let wad = WadAgain::read(rt.alloc(), &mut stage.shelf, "a");
    let place = TextPlace { row: 3, column: 1 };
    assert!(rt;
        wad.as_ref()
            .is_some_and(|wad| wad.place("map02", 2) == Some(place))
    );
    assert!(rt;
        wad.as_ref()
            .is_some_and(|wad| wad.place("MAP01", 2).is_none())
    );
    Ok(())
}
