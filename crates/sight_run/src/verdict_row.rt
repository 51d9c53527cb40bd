//! The line that tells a verdict, in either spelling.

ghost use Rattle.std.specs.Prelude.{◌≡◌, ◌++◌, IfOk, OnOk, codes, drop, string_bytes};
ghost use Rattle.std.specs.Fmt.{decimal};
ghost use Rattle.std.specs.Str.{trim_end};
ghost use Rattle.row_spelling.specs.Quoted.{quoted};
ghost use Rattle.sight_run.specs.Check.{no_json, no_object, reason_of, told_as, yes_json, yes_line, yes_row};
ghost use Rattle.sight_run.specs.Reply.{RepliesAs, replied};

use crate::reply::{Reply, line_alone};
use cert_checker::Totals;
use map_answers::sight_status::{
    Status, Why, line_of, push_count, push_count_line, push_number, push_text,
};
use row_spelling::{Spelling, push_quoted};
use std::alloc::{AllocError, Global};

fn yes_line_of(alloc: Global, n: u16, totals: Totals) -> Result<String, AllocError>
    ensures { IfOk result (λ line. string_bytes line ≡ yes_line n totals) }
{
    let mut line = String::new(alloc);
    push_count(alloc, &mut line, "yes sectors ", u64::from(n))?;
    push_count(alloc, &mut line, " set ", u64::from(totals.set))?;
    push_count(alloc, &mut line, " clear ", u64::from(totals.clear))?;
    push_count_line(alloc, &mut line, " listed ", u64::from(totals.listed))?;
    Ok(line)
}

/// Adds a member, its number, and the end of the object.
fn push_last(alloc: Global, line: &mut String, member: &str, n: u64) -> Result<(), AllocError>
    ensures { OnOk result (string_bytes line.new ≡ string_bytes line.old ++ (member.now ++ decimal n ++ codes "}\n")) }
{
    push_text(line, member)?;
    push_number(alloc, line, n)?;
    push_text(line, "}\n")
}

fn yes_json_of(alloc: Global, n: u16, totals: Totals) -> Result<String, AllocError>
    ensures { IfOk result (λ line. string_bytes line ≡ yes_json n totals) }
{
    let mut line = String::new(alloc);
    push_count(
        alloc,
        &mut line,
        "{\"verdict\":\"yes\",\"sectors\":",
        u64::from(n),
    )?;
    push_count(alloc, &mut line, ",\"set\":", u64::from(totals.set))?;
    push_count(alloc, &mut line, ",\"clear\":", u64::from(totals.clear))?;
    push_last(alloc, &mut line, ",\"listed\":", u64::from(totals.listed))?;
    Ok(line)
}

/// The line of a yes.
fn yes_row_of(
    alloc: Global,
    spelling: Spelling,
    n: u16,
    totals: Totals,
) -> Result<String, AllocError>
    ensures { IfOk result (λ line. string_bytes line ≡ yes_row spelling n totals) }
{
    match spelling {
        Spelling::Text => yes_line_of(alloc, n, totals),
        Spelling::Json => yes_json_of(alloc, n, totals),
    }
}

/// What stands behind the `no` of this line, without its end.
fn behind_no(line: &str) -> &str
    requires { line.now ≡ codes "no " ++ drop 3 line.now }
    ensures { result.now ≡ trim_end (drop 3 line.now) }
{
    match line.strip_prefix("no ") {
        Some(words) => words.trim_end(),
        None => unreachable!(),
    }
}

/// Adds the reason of a no as a string.
fn push_reason(alloc: Global, line: &mut String, which: Why) -> Result<(), AllocError>
    ensures { OnOk result (string_bytes line.new ≡ string_bytes line.old ++ quoted (reason_of which)) }
{
    let words = line_of(alloc, &Status::No(which))?;
    push_quoted(line, behind_no(words.as_str()))
}

fn no_json_of(alloc: Global, which: Why) -> Result<String, AllocError>
    ensures { IfOk result (λ line. string_bytes line ≡ no_json which) }
{
    let mut line = String::from_str(alloc, "{\"verdict\":\"no\",\"reason\":")?;
    push_reason(alloc, &mut line, which)?;
    push_text(&mut line, "}\n")?;
    Ok(line)
}

/// The reply that tells a no as a JSON object.
fn no_object_of(alloc: Global, which: Why) -> Result<Reply, AllocError>
    ensures { IfOk result (λ reply. replied reply ≡ no_object which) }
{
    Ok(Reply {
        outputs: Vec::new(alloc),
        line: no_json_of(alloc, which)?,
        right: false,
    })
}

/// What is found of a table of n sectors, as a reply in this spelling.
pub fn reply_of(
    alloc: Global,
    spelling: Spelling,
    n: u16,
    found: Result<Totals, Status>,
) -> Result<Reply, Status>
    ensures { RepliesAs (told_as spelling n found) result }
{
    match found {
        Ok(totals) => match yes_row_of(alloc, spelling, n, totals) {
            Ok(line) => Ok(line_alone(alloc, line)),
            Err(refused) => Err(Status::Memory(refused.into())),
        },
        Err(Status::No(which)) => match spelling {
            Spelling::Text => Err(Status::No(which)),
            Spelling::Json => match no_object_of(alloc, which) {
                Ok(reply) => Ok(reply),
                Err(refused) => Err(Status::Memory(refused.into())),
            },
        },
        Err(refusal) => Err(refusal),
    }
}
