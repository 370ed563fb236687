//! Reads each line of a script by itself.

ghost use Rattle.std.specs.Prelude.{◌≡◌, map, IfOk};
ghost use Rattle.sched_text.specs.Fits.{LineFits};
ghost use Rattle.sched_text.specs.Results.{Gives};
ghost use Rattle.sched_text.specs.Lines.{word_of, has_line, word_field, counted, tenant_line, table_line, policy_line, limit_line, workers_line, put_line, ext_line, begin_line, turn_line, steal_line, away_line, cut_line, line_of_word, line_of};

use crate::code::LineCode;
use crate::event::Event;
use crate::fields::{blob, field, fields, key, level, number, push_ok, small};
use crate::line::{Kind, LineFault, ScriptLine, Word};
use sp_base::{
    Asked, CallNo, ExtNo, MOST_ARGUMENTS, MOST_BUDGET, MOST_ENTRIES, MOST_QUANTUM, MOST_TEXT,
    MOST_VALUE, MOST_WORKERS, Policy, TableId, TenantId, same_bytes,
};
use std::alloc::Global;

/// The word that a field spells.
fn word_of(text: &[u8]) -> Option<Word>
    ensures { result ≡ word_of text.now }
{
    if same_bytes(text, b"tenant") {
        Some(Word::Tenant)
    } else if same_bytes(text, b"table") {
        Some(Word::Table)
    } else if same_bytes(text, b"policy") {
        Some(Word::Policy)
    } else if same_bytes(text, b"limit") {
        Some(Word::Limit)
    } else if same_bytes(text, b"workers") {
        Some(Word::Workers)
    } else if same_bytes(text, b"put") {
        Some(Word::Put)
    } else if same_bytes(text, b"ext") {
        Some(Word::Ext)
    } else if same_bytes(text, b"begin") {
        Some(Word::Begin)
    } else if same_bytes(text, b"turn") {
        Some(Word::Turn)
    } else if same_bytes(text, b"steal") {
        Some(Word::Steal)
    } else if same_bytes(text, b"away") {
        Some(Word::Away)
    } else if same_bytes(text, b"cut") {
        Some(Word::Cut)
    } else {
        None
    }
}

/// Whether a script of this kind has lines of this word.
fn has_line(kind: Kind, word: Word) -> bool
    ensures { result ≡ has_line kind word }
{
    match kind {
        Kind::Play => true,
        Kind::SetUp => match word {
            Word::Workers | Word::Begin | Word::Turn | Word::Steal | Word::Away | Word::Cut => {
                false
            }
            _ => true,
        },
    }
}

/// The word of a line in a script of this kind.
#[tactic(auto, unfolding(crate::specs::Lines::word_field))]
fn word(kind: Kind, text: &[u8]) -> Result<Word, LineFault>
    ensures { Gives (λ word. word) result (word_field kind text.now) }
{
    match word_of(text) {
        Some(word) if has_line(kind, word) => Ok(word),
        _ => Err(LineFault::Code(LineCode::Word)),
    }
}

/// So many fields, with the word.
#[tactic(auto, unfolding(crate::specs::Lines::counted))]
pub fn counted(fields: &[&[u8]], count: usize) -> Result<(), LineFault>
    ensures { Gives (λ x. x) result (counted count (map (λ x. x.now) fields.now)) }
{
    if fields.len() == count {
        Ok(())
    } else {
        Err(LineFault::Code(LineCode::Count))
    }
}

/// `tenant T KEY`
#[tactic(auto, unfolding(crate::specs::Lines::tenant_line))]
fn tenant_line(fields: &[&[u8]]) -> Result<ScriptLine, LineFault>
    ensures value { Gives (λ line. line) result (tenant_line (map (λ x. x.now) fields.now)) }
    ensures fits { IfOk result LineFits }
{
    counted(fields, 3)?;
    let tenant = TenantId(small(field(fields, 1), 0, u32::MAX)?);
    let key = number(field(fields, 2), 0, u64::MAX)?;
    Ok(ScriptLine::Tenant { tenant, key })
}

/// `table N T LEVEL`
#[tactic(auto, unfolding(crate::specs::Lines::table_line))]
fn table_line(fields: &[&[u8]]) -> Result<ScriptLine, LineFault>
    ensures value { Gives (λ line. line) result (table_line (map (λ x. x.now) fields.now)) }
    ensures fits { IfOk result LineFits }
{
    counted(fields, 4)?;
    let table = TableId(small(field(fields, 1), 0, u32::MAX)?);
    let tenant = TenantId(small(field(fields, 2), 0, u32::MAX)?);
    let level = level(field(fields, 3))?;
    Ok(ScriptLine::Table {
        table,
        tenant,
        level,
    })
}

/// `policy HIGH LEAST`
#[tactic(auto, unfolding(crate::specs::Lines::policy_line))]
fn policy_line(fields: &[&[u8]]) -> Result<ScriptLine, LineFault>
    ensures value { Gives (λ line. line) result (policy_line (map (λ x. x.now) fields.now)) }
    ensures fits { IfOk result LineFits }
{
    counted(fields, 3)?;
    let high = small(field(fields, 1), 0, u32::MAX)?;
    let least = small(field(fields, 2), 0, MOST_BUDGET)?;
    Ok(ScriptLine::Policy(Policy { high, least }))
}

/// `limit N`
#[tactic(auto, unfolding(crate::specs::Lines::limit_line))]
fn limit_line(fields: &[&[u8]]) -> Result<ScriptLine, LineFault>
    ensures value { Gives (λ line. line) result (limit_line (map (λ x. x.now) fields.now)) }
    ensures fits { IfOk result LineFits }
{
    counted(fields, 2)?;
    let limit = number(field(fields, 1), 1, MOST_ENTRIES)?;
    Ok(ScriptLine::Limit(limit))
}

/// `workers N`
#[tactic(auto, unfolding(crate::specs::Lines::workers_line))]
fn workers_line(fields: &[&[u8]]) -> Result<ScriptLine, LineFault>
    ensures value { Gives (λ line. line) result (workers_line (map (λ x. x.now) fields.now)) }
    ensures fits { IfOk result LineFits }
{
    counted(fields, 2)?;
    let workers = small(field(fields, 1), 1, MOST_WORKERS as u32)?;
    Ok(ScriptLine::Workers(workers))
}

/// `put T N KEY VALUE`
#[tactic(auto, unfolding(crate::specs::Lines::put_line))]
fn put_line(alloc: Global, fields: &[&[u8]]) -> Result<ScriptLine, LineFault>
    ensures value { Gives (λ line. line) result (put_line (map (λ x. x.now) fields.now)) }
    ensures fits { IfOk result LineFits }
{
    counted(fields, 5)?;
    let tenant = TenantId(small(field(fields, 1), 0, u32::MAX)?);
    let table = TableId(small(field(fields, 2), 0, u32::MAX)?);
    let key = key(alloc, field(fields, 3))?;
    let value = blob(alloc, field(fields, 4), 0, MOST_VALUE)?;
    Ok(ScriptLine::Body(Event::Put {
        tenant,
        table,
        key,
        value,
    }))
}

/// `ext T LINES`
#[tactic(auto, unfolding(crate::specs::Lines::ext_line))]
fn ext_line(fields: &[&[u8]]) -> Result<ScriptLine, LineFault>
    ensures value { Gives (λ line. line) result (ext_line (map (λ x. x.now) fields.now)) }
    ensures fits { IfOk result LineFits }
{
    counted(fields, 3)?;
    let tenant = TenantId(small(field(fields, 1), 0, u32::MAX)?);
    let lines = small(field(fields, 2), 1, MOST_TEXT as u32)?;
    Ok(ScriptLine::Ext { tenant, lines })
}

/// `begin W T C NO EXT BUDGET PUSH ARGS`
#[tactic(auto, unfolding(crate::specs::Lines::begin_line))]
fn begin_line(alloc: Global, fields: &[&[u8]]) -> Result<ScriptLine, LineFault>
    ensures value { Gives (λ line. line) result (begin_line (map (λ x. x.now) fields.now)) }
    ensures fits { IfOk result LineFits }
{
    counted(fields, 9)?;
    let worker = small(field(fields, 1), 0, u32::MAX)?;
    let tenant = TenantId(small(field(fields, 2), 0, u32::MAX)?);
    let caller = small(field(fields, 3), 0, u32::MAX)?;
    let number = CallNo(number(field(fields, 4), 1, u64::MAX)?);
    let ext = ExtNo(small(field(fields, 5), 0, u32::MAX)?);
    let budget = small(field(fields, 6), 1, MOST_BUDGET)?;
    let push_ok = push_ok(field(fields, 7))?;
    let args = blob(alloc, field(fields, 8), 0, MOST_ARGUMENTS)?;
    Ok(ScriptLine::Body(Event::Begin {
        worker,
        tenant,
        asked: Asked {
            caller,
            number,
            ext,
            budget,
            push_ok,
            args,
        },
    }))
}

/// `turn W Q`
#[tactic(auto, unfolding(crate::specs::Lines::turn_line))]
fn turn_line(fields: &[&[u8]]) -> Result<ScriptLine, LineFault>
    ensures value { Gives (λ line. line) result (turn_line (map (λ x. x.now) fields.now)) }
    ensures fits { IfOk result LineFits }
{
    counted(fields, 3)?;
    let worker = small(field(fields, 1), 0, u32::MAX)?;
    let quantum = small(field(fields, 2), 1, MOST_QUANTUM)?;
    Ok(ScriptLine::Body(Event::Turn { worker, quantum }))
}

/// `steal W V`
#[tactic(auto, unfolding(crate::specs::Lines::steal_line))]
fn steal_line(fields: &[&[u8]]) -> Result<ScriptLine, LineFault>
    ensures value { Gives (λ line. line) result (steal_line (map (λ x. x.now) fields.now)) }
    ensures fits { IfOk result LineFits }
{
    counted(fields, 3)?;
    let worker = small(field(fields, 1), 0, u32::MAX)?;
    let from = small(field(fields, 2), 0, u32::MAX)?;
    Ok(ScriptLine::Body(Event::Steal { worker, from }))
}

/// `away T C`
#[tactic(auto, unfolding(crate::specs::Lines::away_line))]
fn away_line(fields: &[&[u8]]) -> Result<ScriptLine, LineFault>
    ensures value { Gives (λ line. line) result (away_line (map (λ x. x.now) fields.now)) }
    ensures fits { IfOk result LineFits }
{
    counted(fields, 3)?;
    let tenant = TenantId(small(field(fields, 1), 0, u32::MAX)?);
    let caller = small(field(fields, 2), 0, u32::MAX)?;
    Ok(ScriptLine::Body(Event::Away { tenant, caller }))
}

/// `cut T C`
#[tactic(auto, unfolding(crate::specs::Lines::cut_line))]
fn cut_line(fields: &[&[u8]]) -> Result<ScriptLine, LineFault>
    ensures value { Gives (λ line. line) result (cut_line (map (λ x. x.now) fields.now)) }
    ensures fits { IfOk result LineFits }
{
    counted(fields, 3)?;
    let tenant = TenantId(small(field(fields, 1), 0, u32::MAX)?);
    let caller = small(field(fields, 2), 0, u32::MAX)?;
    Ok(ScriptLine::Body(Event::Cut { tenant, caller }))
}

/// What the fields of a line of this word say.
fn line_of_word(alloc: Global, word: Word, fields: &[&[u8]]) -> Result<ScriptLine, LineFault>
    ensures value { Gives (λ line. line) result (line_of_word word (map (λ x. x.now) fields.now)) }
    ensures fits { IfOk result LineFits }
{
    match word {
        Word::Tenant => tenant_line(fields),
        Word::Table => table_line(fields),
        Word::Policy => policy_line(fields),
        Word::Limit => limit_line(fields),
        Word::Workers => workers_line(fields),
        Word::Put => put_line(alloc, fields),
        Word::Ext => ext_line(fields),
        Word::Begin => begin_line(alloc, fields),
        Word::Turn => turn_line(fields),
        Word::Steal => steal_line(fields),
        Word::Away => away_line(fields),
        Word::Cut => cut_line(fields),
    }
}

/// What a line of a script says.
#[tactic(auto, unfolding(crate::specs::Lines::line_of))]
pub fn line_of(alloc: Global, kind: Kind, line: &[u8]) -> Result<ScriptLine, LineFault>
    ensures value { Gives (λ line. line) result (line_of kind line.now) }
    ensures fits { IfOk result LineFits }
{
    let fields = fields(alloc, line)?;
    let word = word(kind, field(fields.as_slice(), 0))?;
    line_of_word(alloc, word, fields.as_slice())
}
