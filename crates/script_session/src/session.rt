// A script's lines, answered one by one as they come.
ghost use Rattle.std.specs.Prelude.{◌≡◌, ◌<◌, ◌≤◌, ◌++◌, ◌∷◌, [], ◌||◌, true, false, length, map, OnOk};
ghost use Rattle.script_session.specs.private.Causes.{SinkCause};
ghost use Rattle.script_session.specs.Reply.{wants_memory, is_error, final_status};
ghost use Rattle.script_session.specs.Request.{RequestStep, Words};
ghost use Rattle.text_lines.specs.Lines.{HasNoNewline};
ghost use Rattle.script_session.specs.Script.{is_comment, text_requests, is_end_text};

use crate::machine::Machine;
use crate::output::write_all;
use crate::reading::LINE_LIMIT;
use crate::reply::{is_error_reply, is_memory_reply};
use std::alloc::Global;
use sym_io::{Sink, Store};
use text_lines::{cut_line, line_text, words};

/// A comment's first byte is `#`.
fn is_comment_line(line: &[u8]) -> bool
    ensures { result ≡ is_comment line.now }
{
    match line {
        [first, ..] => *first == b'#',
        [] => false,
    }
}

/// Whether a script goes on after a line.
#[derive(Clone, Copy)]
pub(crate) enum Flow {
    Open,
    Ended,
}

/// Why a run ends before its script does.
#[derive(Clone, Copy)]
pub(crate) enum Stop {
    Source,
    Sink,
    TooLong,
    Memory,
}

/// What a run keeps beside its machine: the room for a reply, which each command uses anew, and what was answered so far.
#[derive(Drop)]
pub(crate) struct Session {
    alloc: Global,
    reply: Vec<u8>,
    refused: bool,
    wanted_memory: bool,
}

impl Session {
    ghost use Rattle.script_session.specs.private.Session.{moment_of, ServesOne, ServesAll, ServesLine, ServesPiece, ServesRest};

    pub(crate) fn new(alloc: Global) -> Self
        ensures refused { result.refused ≡ false }
        ensures wanted { result.wanted_memory ≡ false }
    {
        Session {
            alloc,
            reply: Vec::new(alloc),
            refused: false,
            wanted_memory: false,
        }
    }

    /// What the run takes its memory from.
    pub(crate) fn alloc(&self) -> Global {
        self.alloc
    }

    /// The status of a script that has come to its end.
    pub(crate) fn status(&self) -> u8
        ensures { result ≡ final_status self.now.wanted_memory self.now.refused }
    {
        if self.wanted_memory {
            5
        } else if self.refused {
            1
        } else {
            0
        }
    }

    /// Keeps in mind what the reply says.
    fn note_reply(&mut self)
        ensures refused { self.new.refused ≡ (self.old.refused || is_error self.old.reply.items) }
        ensures wanted { self.new.wanted_memory ≡ (self.old.wanted_memory || wants_memory self.old.reply.items) }
        ensures reply { self.new.reply ≡ self.old.reply }
    {
        self.refused |= is_error_reply(&self.reply);
        self.wanted_memory |= is_memory_reply(&self.reply);
    }

    /// Answers one command.
    fn serve_command<M: Machine, W: Sink, S: Store>(
        &mut self,
        machine: &mut M,
        out: &mut W,
        store: &mut S,
        words: &[&[u8]],
    ) -> Result<(), Stop>
        requires { 0 < length words.now }
        ensures served { ServesOne (RequestStep M.step) result (moment_of self.old machine.old (W.written out.old) (S.files store.old) (S.faults store.old))
            (Words (map (λ word. word.now) words.now)) (moment_of self.new machine.new (W.written out.new) (S.files store.new) (S.faults store.new)) }
        ensures cause { SinkCause result (W.faults out.old) (W.faults out.new) }
        ensures later { W.faults out.old ≤ W.faults out.new }
        ensures store_later { S.faults store.old ≤ S.faults store.new }
    {
        self.reply.clear();
        let Ok(()) = machine.answer(self.alloc, store, words, &mut self.reply) else {
            return Err(Stop::Memory);
        };
        self.note_reply();
        let Ok(()) = write_all(out, &self.reply) else {
            return Err(Stop::Sink);
        };
        Ok(())
    }

    /// Answers one command, and tells whether it ends the script.
    fn serve_words<M: Machine, W: Sink, S: Store>(
        &mut self,
        machine: &mut M,
        out: &mut W,
        store: &mut S,
        words: &[&[u8]],
    ) -> Result<Flow, Stop>
        requires { 0 < length words.now }
        ensures served { ServesAll (RequestStep M.step) result (moment_of self.old machine.old (W.written out.old) (S.files store.old) (S.faults store.old))
            (Words (map (λ word. word.now) words.now) ∷ []) (M.ends (map (λ word. word.now) words.now)) (moment_of self.new machine.new (W.written out.new) (S.files store.new) (S.faults store.new)) }
        ensures cause { SinkCause result (W.faults out.old) (W.faults out.new) }
        ensures later { W.faults out.old ≤ W.faults out.new }
        ensures store_later { S.faults store.old ≤ S.faults store.new }
    {
        match self.serve_command(machine, out, store, words) {
            Ok(()) => {
                if machine.ends_script(words) {
                    Ok(Flow::Ended)
                } else {
                    Ok(Flow::Open)
                }
            }
            Err(stop) => Err(stop),
        }
    }

    /// Answers the text of a line, where it has a command.
    fn serve_text<M: Machine, W: Sink, S: Store>(
        &mut self,
        machine: &mut M,
        out: &mut W,
        store: &mut S,
        text: &[u8],
    ) -> Result<Flow, Stop>
        ensures served { ServesAll (RequestStep M.step) result (moment_of self.old machine.old (W.written out.old) (S.files store.old) (S.faults store.old))
            (text_requests text.now) (is_end_text M.ends text.now) (moment_of self.new machine.new (W.written out.new) (S.files store.new) (S.faults store.new)) }
        ensures cause { SinkCause result (W.faults out.old) (W.faults out.new) }
        ensures later { W.faults out.old ≤ W.faults out.new }
        ensures store_later { S.faults store.old ≤ S.faults store.new }
    {
        if is_comment_line(text) {
            return Ok(Flow::Open);
        }
        let Ok(words) = words(self.alloc, text) else {
            return Err(Stop::Memory);
        };
        if words.is_empty() {
            drop(words);
            return Ok(Flow::Open);
        }
        let flow = self.serve_words(machine, out, store, &words);
        drop(words);
        flow
    }

    /// Answers the line of these bytes, `ended` by a newline or not. The reply to a line that is too long needs no memory.
    fn serve_line<M: Machine, W: Sink, S: Store>(
        &mut self,
        machine: &mut M,
        out: &mut W,
        store: &mut S,
        bytes: &[u8],
        ended: bool,
    ) -> Result<Flow, Stop>
        ensures served { ServesLine M.ends (RequestStep M.step) result (moment_of self.old machine.old (W.written out.old) (S.files store.old) (S.faults store.old))
            (record { bytes = bytes.now; ended = ended }) (moment_of self.new machine.new (W.written out.new) (S.files store.new) (S.faults store.new)) }
        ensures cause { SinkCause result (W.faults out.old) (W.faults out.new) }
        ensures later { W.faults out.old ≤ W.faults out.new }
        ensures store_later { S.faults store.old ≤ S.faults store.new }
    {
        let is_long = bytes.len() > LINE_LIMIT;
        if is_long {
            self.refused = true;
            let Ok(()) = write_all(out, b"error 01 line too long\n") else {
                return Err(Stop::Sink);
            };
            return Ok(Flow::Open);
        }
        let text = line_text(bytes, ended);
        self.serve_text(machine, out, store, text)
    }

    /// Answers the line that these bytes end behind what is kept of it. Nothing is kept of a line that was answered.
    fn serve_joined<M: Machine, W: Sink, S: Store>(
        &mut self,
        machine: &mut M,
        out: &mut W,
        store: &mut S,
        pending: &mut Vec<u8>,
        end: &[u8],
    ) -> Result<Flow, Stop>
        ensures served { ServesLine M.ends (RequestStep M.step) result (moment_of self.old machine.old (W.written out.old) (S.files store.old) (S.faults store.old))
            (record { bytes = pending.old.items ++ end.now; ended = true }) (moment_of self.new machine.new (W.written out.new) (S.files store.new) (S.faults store.new)) }
        ensures cleared { OnOk result (pending.new.items ≡ []) }
        ensures cause { SinkCause result (W.faults out.old) (W.faults out.new) }
        ensures later { W.faults out.old ≤ W.faults out.new }
        ensures store_later { S.faults store.old ≤ S.faults store.new }
    {
        let Ok(()) = pending.extend_from_slice(end) else {
            return Err(Stop::Memory);
        };
        match self.serve_line(machine, out, store, pending, true) {
            Ok(flow) => {
                pending.clear();
                Ok(flow)
            }
            Err(stop) => Err(stop),
        }
    }

    /// Answers the lines that the piece ends, and keeps what follows the last of them.
    pub(crate) fn feed<M: Machine, W: Sink, S: Store>(
        &mut self,
        machine: &mut M,
        out: &mut W,
        store: &mut S,
        pending: &mut Vec<u8>,
        piece: &[u8],
    ) -> Result<Flow, Stop>
        requires { HasNoNewline pending.old.items }
        ensures served { ServesPiece M.ends (RequestStep M.step) result (moment_of self.old machine.old (W.written out.old) (S.files store.old) (S.faults store.old))
            (pending.old.items ++ piece.now) (moment_of self.new machine.new (W.written out.new) (S.files store.new) (S.faults store.new)) pending.new.items }
        ensures cause { SinkCause result (W.faults out.old) (W.faults out.new) }
        ensures later { W.faults out.old ≤ W.faults out.new }
        ensures store_later { S.faults store.old ≤ S.faults store.new }
    {
        let mut rest = piece;
        while let Some((line, more)) = cut_line(rest) {
            match self.serve_joined(machine, out, store, pending, line) {
                Ok(Flow::Ended) => return Ok(Flow::Ended),
                Ok(Flow::Open) => {}
                Err(stop) => return Err(stop),
            }
            rest = more;
        }
        match pending.extend_from_slice(rest) {
            Ok(()) => Ok(Flow::Open),
            Err(_) => Err(Stop::Memory),
        }
    }

    /// Answers the last line, which has no newline, where there is one.
    pub(crate) fn serve_rest<M: Machine, W: Sink, S: Store>(
        &mut self,
        machine: &mut M,
        out: &mut W,
        store: &mut S,
        pending: &[u8],
    ) -> Result<(), Stop>
        requires { HasNoNewline pending.now }
        ensures served { ServesRest M.ends (RequestStep M.step) result (moment_of self.old machine.old (W.written out.old) (S.files store.old) (S.faults store.old))
            pending.now (moment_of self.new machine.new (W.written out.new) (S.files store.new) (S.faults store.new)) }
        ensures cause { SinkCause result (W.faults out.old) (W.faults out.new) }
        ensures later { W.faults out.old ≤ W.faults out.new }
        ensures store_later { S.faults store.old ≤ S.faults store.new }
    {
        if pending.is_empty() {
            return Ok(());
        }
        match self.serve_line(machine, out, store, pending, false) {
            Ok(_) => Ok(()),
            Err(stop) => Err(stop),
        }
    }
}
