// What a line does: which line is awaited after it, what is said of it, and the register's words then.
ghost use Rattle.std.specs.Prelude.{◌≡◌, if◌then◌else◌};
ghost use Rattle.console_text.specs.Input.{settings_line, change_line};
ghost use Rattle.console_run.specs.Console.{does, says, bad_at, called, settings_do, asked_of, change_do, text_does, line_does};
ghost use Rattle.console_run.specs.TurnLaws.{turn_of};
ghost use Rattle.console_run.specs.Words.{lent_of, SameLent};

use crate::lent::LentWords;
use applying::{Answer, Call};
use console_text::gather::Gather;
use console_text::parse;
use console_text::parse::Line;
use layout::refusal::Refusal;
use layout::settings::Settings;

// The line that is awaited: one of the first three, a change, or none any more.
#[derive(Clone, Copy, PartialEq, Eq)]
pub enum Stage {
    SettingsNames,
    Settings,
    ChangeNames,
    Changes,
    Over,
}

// What is printed for a line.
#[derive(Clone, Copy)]
pub enum Said {
    Nothing,
    Bad,
    // time, the refusal's number (the line prints any number: a `Refusal` here would ask more of those who call `print` with one)
    No(u32, u32),
    // time, rows, blocks listed
    Slice(u32, u32, u32),
}

#[derive(Clone, Copy)]
pub struct Turn {
    pub next: Stage,
    pub said: Said,
}

// A bad line: among the first three it ends the run.
fn bad_at(stage: Stage) -> Turn
    ensures { result ≡ bad_at stage }
{
    let (next, said) = match stage {
        Stage::SettingsNames | Stage::Settings | Stage::ChangeNames => (Stage::Over, Said::Bad),
        Stage::Changes => (Stage::Changes, Said::Bad),
        Stage::Over => (Stage::Over, Said::Nothing),
    };
    Turn { next, said }
}

// A names line: it stands exactly so, or it is bad.
fn names(stands: bool, stage: Stage, next: Stage) -> Turn
    ensures { result ≡ (if stands then says next Said.Nothing else bad_at stage) }
{
    if !stands {
        return bad_at(stage);
    }
    Turn {
        next,
        said: Said::Nothing,
    }
}

// What a line asks for: a call, at the line's time.
#[derive(Clone, Copy)]
struct Asked {
    time: u32,
    call: Call,
}

impl From<Line> for Asked {
    ghost from_gives = { λ line asked. asked ≡ asked_of line };

    fn from(line: Line) -> Asked {
        let (time, call) = match line {
            Line::Set(time, tag, reading) => (time, Call::Set(time, tag, reading)),
            Line::Clear(time, tag) => (time, Call::Clear(time, tag)),
            Line::Update(time, tag, reading) => (time, Call::Update(time, tag, reading)),
            Line::Advance(time) => (time, Call::Advance(time)),
            Line::LookBack(time) => (time, Call::LookBack(time)),
        };
        Asked { time, call }
    }
}

// A call's answer, for a line of this time: `done` is awaited after an accepted one, `refused` after a refused one.
fn answered(answer: Result<Answer, Refusal>, time: u32, done: Stage, refused: Stage) -> Turn
    ensures { result ≡ turn_of done refused time answer }
{
    let (next, said) = match answer {
        Ok(Answer::Done(_)) => (done, Said::Nothing),
        Ok(Answer::Shown(slice)) => (
            done,
            Said::Slice(time, slice.counts.rows, slice.counts.blocks),
        ),
        Err(refusal) => (refused, Said::No(time, refusal.number())),
    };
    Turn { next, said }
}

// A call, and what is awaited after it, accepted or refused.
fn called(asked: Asked, done: Stage, refused: Stage, lent: &mut LentWords<'_>) -> Turn
    ensures same { SameLent lent.old lent.new }
    ensures does { does result (lent_of lent.new) ≡ called done refused asked.time asked.call (lent_of lent.old) }
{
    let answer = applying::apply(lent.store, asked.call, lent.rows, lent.list);
    answered(answer, asked.time, done, refused)
}

// The settings ask for start, at time 0.
fn settings(text: &[u8], lent: &mut LentWords<'_>) -> Turn
    ensures same { SameLent lent.old lent.new }
    ensures does { does result (lent_of lent.new) ≡ settings_do (settings_line text.now) (lent_of lent.old) }
{
    let Some((b, q, blocks, tags)) = parse::parse_settings(text) else {
        return bad_at(Stage::Settings);
    };
    let start = Asked {
        time: 0,
        call: Call::Start(Settings::asked(b, q, blocks, tags)),
    };
    called(start, Stage::ChangeNames, Stage::Over, lent)
}

// A change, or a look back.
fn change(text: &[u8], lent: &mut LentWords<'_>) -> Turn
    ensures same { SameLent lent.old lent.new }
    ensures does { does result (lent_of lent.new) ≡ change_do (change_line text.now) (lent_of lent.old) }
{
    let Some(line) = parse::parse_change(text) else {
        return bad_at(Stage::Changes);
    };
    called(line.into(), Stage::Changes, Stage::Changes, lent)
}

// A line of at most LINE_MOST bytes.
fn take_text(stage: Stage, text: &[u8], lent: &mut LentWords<'_>) -> Turn
    ensures same { SameLent lent.old lent.new }
    ensures does { does result (lent_of lent.new) ≡ text_does stage text.now (lent_of lent.old) }
{
    match stage {
        Stage::SettingsNames => names(parse::is_settings_names(text), stage, Stage::Settings),
        Stage::Settings => settings(text, lent),
        Stage::ChangeNames => names(parse::is_change_names(text), stage, Stage::Changes),
        Stage::Changes => change(text, lent),
        Stage::Over => bad_at(Stage::Over),
    }
}

// The line that is complete, as it was gathered.
pub fn take_line(stage: Stage, line: &Gather, lent: &mut LentWords<'_>) -> Turn
    ensures same { SameLent lent.old lent.new }
    ensures does { does result (lent_of lent.new) ≡ line_does stage line.now (lent_of lent.old) }
{
    match line.text() {
        Some(text) => take_text(stage, text, lent),
        None => bad_at(stage),
    }
}
