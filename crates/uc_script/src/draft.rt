ghost use Rattle.std.specs.Prelude.{◌≡◌, ◌∷◌, [], true, drop, filter};
ghost use Rattle.std.specs.List.{list_all};
ghost use Rattle.std.specs.Str.{is_utf8};
ghost use Rattle.uc_text.specs.Lines.{counts, words_of};
ghost use Rattle.script_text.specs.declared.forms.Place.TheVariants.{Top, InLoad};
ghost use Rattle.script_text.specs.Forms.{has_form};

use crate::answer::{LineAnswer, ScriptAnswer};
use crate::beats::add_beats;
use crate::forms::{form_of, is_end};
use crate::names::names_of;
use crate::numbers::{stated_below, stated_number};
use crate::rest::Rest;
use script_text::{
    Beats, Command, Form, Limits, OpenLoad, Place, Script, ScriptCause, ScriptFault,
};
use std::alloc::Global;
use std::marker::Model;
use uc_bytes::NoMemory;
use uc_text::Line;

/// The commands that a script may have.
const MOST_COMMANDS: usize = 4_096;

/// What the lines so far state. No load is open between two calls.
#[derive(Debug, Drop)]
pub struct Draft {
    alloc: Global,
    place: Place,
    pool: u32,
    patience: u32,
    commands: Vec<Command>,
}

impl Model for Draft {
    ghost use Rattle.std.specs.Prelude.{◌≢◌};
    ghost use Rattle.script_text.specs.declared.forms.Place.TheVariants.{InLoad};
    ghost use Rattle.script_text.specs.Stands.{Before, no_load};

    ghost Value = { Before };

    ghost view = { λ d. record {
      place = d.place;
      pool = d.pool;
      patience = d.patience;
      commands = d.commands.items;
      load = no_load;
    } };

    ghost invariant = { λ d. d.place ≢ InLoad };
}

impl Draft {
    ghost use Rattle.script_text.specs.Stands.{opening};
    ghost use Rattle.script_text.specs.Reading.{finished};
    ghost use Rattle.uc_script.specs.Answers.{IsAdded, GoesOn, IsRead, AddsCommand, AddsLoad, EndsLoad, SetsPool};
    ghost use Rattle.uc_script.specs.Answers.{SetsPatience, is_single, spelling, without_form};

    /// Before the first line.
    pub fn new(alloc: Global) -> Self
        ensures { result ≡ opening }
    {
        Draft {
            alloc,
            place: Place::Front,
            pool: 4_096,
            patience: 10_000_000,
            commands: Vec::new(alloc),
        }
    }

    /// Takes what a line states, and where it begins a load the lines up to its `end`.
    pub fn add_line(
        &mut self,
        limits: Limits,
        line: &Line,
        lines: &mut Rest,
    ) -> Result<(), ScriptAnswer>
        ensures { GoesOn limits self.old ((line.now.number, line.now.text.now) ∷ filter counts lines.old) self.new
            (filter counts lines.new) result }
    {
        let Some(form) = form_of(self.place, line.text) else {
            return Err(fault_at(line.number, self.without_form()));
        };
        match form {
            Form::Load => self.add_load(limits, line, false, lines),
            Form::LoadForce => self.add_load(limits, line, true, lines),
            _ => match self.add_single(limits, form, line) {
                Ok(()) => Ok(()),
                Err(answer) => Err(answer.at(line.number)),
            },
        }
    }

    /// Why a line without a form of its place adds nothing.
    fn without_form(&self) -> ScriptCause
        ensures { result ≡ without_form self.now.place }
    {
        if self.place == Place::Front {
            ScriptCause::Head
        } else {
            ScriptCause::Word
        }
    }

    /// Takes what a line of a form states that neither begins nor ends a load.
    fn add_single(&mut self, limits: Limits, form: Form, line: &Line) -> Result<(), LineAnswer>
        requires single { is_single form ≡ true }
        requires form { has_form (words_of line.now.text.now) form ≡ true }
        ensures { IsAdded limits self.old line.now.number form (words_of line.now.text.now) self.new result }
    {
        let text = line.text;
        match form {
            Form::Title => self.begin(),
            Form::Pool => self.set_pool(text),
            Form::Patience => self.set_patience(text),
            Form::Boot => self.add_boot(text),
            Form::Online => self.add(Command::Online(stated_below(text, limits.threads)?)),
            Form::Offline => self.add(Command::Offline(stated_below(text, limits.threads)?)),
            Form::Suspend => self.add(Command::Suspend),
            Form::Resume => self.add(Command::Resume),
            Form::Refuse => self.add(Command::Refuse(stated_below(text, limits.cores)?)),
            Form::Accept => self.add(Command::Accept(stated_below(text, limits.cores)?)),
            Form::Load | Form::LoadForce | Form::End | Form::Beats => unreachable!(),
        }
    }

    fn begin(&mut self) -> Result<(), LineAnswer>
        ensures { (result ≡ Ok tt) × (self.new ≡ record self.old { place = Top }) }
    {
        self.place = Place::Top;
        Ok(())
    }

    fn set_pool(&mut self, line: &[u8]) -> Result<(), LineAnswer>
        ensures { SetsPool self.old (spelling line.now) self.new result }
    {
        let pool = stated_number(line)?;
        if pool < 1 || pool > 65_536 {
            return Err(LineAnswer::Cause(ScriptCause::Range));
        }
        self.place = Place::AfterPool;
        self.pool = pool as u32;
        Ok(())
    }

    fn set_patience(&mut self, line: &[u8]) -> Result<(), LineAnswer>
        ensures { SetsPatience self.old (spelling line.now) self.new result }
    {
        let patience = stated_number(line)?;
        if patience >= 1 << 32 {
            return Err(LineAnswer::Cause(ScriptCause::Range));
        }
        self.place = Place::Commands;
        self.patience = patience as u32;
        Ok(())
    }

    fn add_boot(&mut self, line: &[u8]) -> Result<(), LineAnswer>
        requires { list_all is_utf8 (drop 1 (words_of line.now)) ≡ true }
        ensures { AddsCommand self.old (Command.Boot (drop 1 (words_of line.now))) self.new result }
    {
        let names = names_of(self.alloc, line)?;
        self.add(Command::Boot(names))
    }

    /// Puts a command behind those that stand, of which there are at most 4,096.
    fn add(&mut self, command: Command) -> Result<(), LineAnswer>
        ensures { AddsCommand self.old command self.new result }
    {
        if self.commands.len() >= MOST_COMMANDS {
            return Err(LineAnswer::Cause(ScriptCause::TooMany));
        }
        self.commands.push(command)?;
        self.place = Place::Commands;
        Ok(())
    }

    /// Takes the load that a line begins, up to its `end`.
    fn add_load(
        &mut self,
        limits: Limits,
        line: &Line,
        force: bool,
        lines: &mut Rest,
    ) -> Result<(), ScriptAnswer>
        requires { list_all is_utf8 (drop 1 (words_of line.now.text.now)) ≡ true }
        ensures { AddsLoad limits self.old
            (record { line = line.now.number; force = force; names = drop 1 (words_of line.now.text.now); beats = [] })
            (filter counts lines.old) self.new (filter counts lines.new) result }
    {
        if self.commands.len() >= MOST_COMMANDS {
            return Err(fault_at(line.number, ScriptCause::TooMany));
        }
        let names = match names_of(self.alloc, line.text) {
            Ok(names) => names,
            Err(NoMemory) => return Err(ScriptAnswer::NoMemory),
        };
        let load = OpenLoad {
            line: line.number,
            force,
            names,
            beats: Beats::new(self.alloc),
        };
        self.read_load(limits, load, lines)
    }

    /// Takes the lines of a load that has no beats yet, up to its `end`.
    fn read_load(
        &mut self,
        limits: Limits,
        load: OpenLoad,
        lines: &mut Rest,
    ) -> Result<(), ScriptAnswer>
        requires { load.beats ≡ [] }
        ensures { GoesOn limits (record self.old { place = InLoad; load = load }) (filter counts lines.old) self.new
            (filter counts lines.new) result }
    {
        let mut load = load;
        let mut events = 0;
        loop {
            match lines.add_event_lines(limits, &mut load.beats, &mut events) {
                Ok(()) => {}
                Err(NoMemory) => return Err(ScriptAnswer::NoMemory),
            }
            match lines.add_short_line(limits, &mut load.beats, &mut events) {
                Some(Ok(())) => continue,
                Some(Err(answer)) => return Err(answer),
                None => {}
            }
            let Some(line) = lines.next_counted() else {
                return Err(fault_at(load.line, ScriptCause::NoEnd));
            };
            if is_end(line.text) {
                return self.end_load(load);
            }
            match add_beats(limits, line.text, &mut load.beats, &mut events) {
                Ok(()) => {}
                Err(answer) => return Err(answer.at(line.number)),
            }
        }
    }

    /// Makes a load a command.
    fn end_load(&mut self, load: OpenLoad) -> Result<(), ScriptAnswer>
        ensures { EndsLoad self.old load self.new result }
    {
        let OpenLoad {
            force,
            names,
            beats,
            ..
        } = load;
        let command = Command::Load {
            force,
            names,
            beats,
        };
        if self.commands.push(command).is_err() {
            return Err(ScriptAnswer::NoMemory);
        }
        self.place = Place::Commands;
        Ok(())
    }

    /// The script, at the end of the text.
    pub fn finish(self) -> Result<Script, ScriptAnswer>
        ensures { IsRead (finished self) result }
    {
        if self.place == Place::Front {
            return Err(fault_at(0, ScriptCause::Head));
        }
        Ok(Script::new(self.pool, self.patience, self.commands))
    }
}

fn fault_at(line: u32, cause: ScriptCause) -> ScriptAnswer
    ensures { result ≡ ScriptAnswer.Fault (record { line = line; cause = cause }) }
{
    ScriptAnswer::Fault(ScriptFault { line, cause })
}
