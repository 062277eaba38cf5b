//! What the lines of a trace said.
ghost use Rattle.std.specs.Prelude.{◌≡◌, ◌<◌, ◌≤◌, ◌+◌, IsTrue, IfOk, IfErr, Ok, None, length};
ghost use Rattle.mk_spelling.specs.Fields.{found, place};
ghost use Rattle.mk_spelling.specs.Words.{is_name, words, words_behind};
ghost use Rattle.mk_spelling.specs.declared.fault.TextFault.TheVariants.{Unknown};
ghost use Rattle.mk_trace_lines.specs.TraceLines.TraceLine.{Declares, Names as NamesLine, Begins, Logged, Changed, Ends};
ghost use Rattle.mk_trace_text.specs.States.{nothing, after};
ghost use Rattle.mk_trace_text.specs.Begun.{begun_after};
ghost use Rattle.mk_trace_text.specs.Grammar as spec;
ghost use Rattle.mk_history.specs.Shape.{HasShape};
ghost use Rattle.mk_kept.specs.Heads.{history};
ghost use Rattle.mk_trace.specs.Seen.{Meets, MeetsLine, Fails};

use crate::error::LineError;
use mk_history::{ColumnNumbers, Globals, Journals, Logs, RoundLog, Rounds};
use mk_kept::{Head, Run};
use mk_names::Names;
use mk_quorum::Size;
use mk_text::{
    TextFault, cut_word, is_name, is_number, look, name_text, need, next_word, none_left, number,
    one, two, value,
};
use mk_trace_lines::{
    Keyword, Replier, act_shape, first, keyword, reply, reply_shape, turn, value as written_value,
};
use mk_trace_parts::{
    are_writes, begins_with_digit, below, empty_journals, empty_logs, is_text_of, is_up_to, places,
    push_entry, push_step, raise, version_of,
};
use mk_trace_text::Section;
use mk_txn::{TxnId, WriteItem};
use mk_words::{GlobalAnswer, GlobalEntry, GlobalLine, JournalEntry, KeyCall, Step, Writes};
use std::alloc::Global;
use std::marker::Model;

/// The greatest clock, 2^61.
const LAST_CLOCK: u64 = 2305843009213693952;

/// What the lines of a trace said so far. It keeps the round that goes on, and those that were not handed out.
#[derive(Drop)]
pub struct Reader {
    alloc: Global,
    section: Section,
    head: Head,
    begun: Vec<u32>,
    count: u32,
    changes: u32,
    column: u32,
    replica: u32,
    key: u32,
    logs: Vec<Vec<Step>>,
    journals: Vec<Vec<Vec<JournalEntry>>>,
    globals: Vec<GlobalEntry>,
    rounds: Vec<RoundLog>,
}

impl Model for Reader {
    ghost use Rattle.std.specs.Prelude.{map};
    ghost use Rattle.mk_trace_text.specs.States.{State};
    ghost use Rattle.mk_trace.specs.Seen.{IsWithin};

    ghost Value = { State };

    ghost view = { λ a. record {
      section = a.section;
      head = a.head;
      begun = a.begun.items;
      count = a.count;
      changes = a.changes;
      column = a.column;
      replica = a.replica;
      key = a.key;
      round = record {
        logs = map (λ log. log.items) a.logs.items;
        journals = map (λ replica. map (λ key. key.items) replica.items) a.journals.items;
        globals = a.globals.items;
      };
      rounds = a.rounds.items;
    } };

    ghost invariant = { λ a. IsWithin a.head a.count a.changes };
}

impl Reader {
    pub fn new(alloc: Global) -> Reader
        ensures { result ≡ nothing }
    {
        Reader {
            alloc,
            section: Section::Start,
            head: Head {
                version: 0,
                size: Size::new(1).unwrap(),
                columns: 0,
                client_columns: ColumnNumbers::of(Vec::new(alloc)),
                client_names: Names::with_limit(alloc, 64),
                key_names: Names::with_limit(alloc, 256),
            },
            begun: Vec::new(alloc),
            count: 0,
            changes: 0,
            column: 0,
            replica: 0,
            key: 0,
            logs: Vec::new(alloc),
            journals: Vec::new(alloc),
            globals: Vec::new(alloc),
            rounds: Vec::new(alloc),
        }
    }

    fn version(&mut self, rest: Option<&[u8]>) -> Result<(), LineError>
        ensures { MeetsLine result self.new self.old (spec.version_line self.old (words_behind rest.entry)) }
    {
        let word = one(rest).ok_or(TextFault::Form)?;
        need(places::at_start(self.section), TextFault::Order)?;
        self.head.version = version_of(word)?;
        self.section = Section::Opened;
        Ok(())
    }

    fn size(&mut self, rest: Option<&[u8]>) -> Result<(), LineError>
        ensures { MeetsLine result self.new self.old (spec.size_line self.old (words_behind rest.entry)) }
    {
        let word = one(rest).ok_or(TextFault::Form)?;
        need(places::at_size(self.section), TextFault::Order)?;
        let f = number(word, 1, 3)? as u32;
        self.head.size = Size::new(f).unwrap();
        self.section = Section::Clients;
        Ok(())
    }

    fn client(&mut self, rest: Option<&[u8]>) -> Result<(), LineError>
        ensures { MeetsLine result self.new self.old (spec.client_line self.old (words_behind rest.entry)) }
    {
        let (name, column) = two(rest).ok_or(TextFault::Form)?;
        need(places::in_clients(self.section), TextFault::Order)?;
        need(is_name(name), TextFault::Name)?;
        let column = number(column, 0, 7)? as u32;
        need(self.head.client_names.len() < 64, TextFault::Many)?;
        let name = name_text(name);
        need(
            self.head.client_names.find(name).is_none(),
            TextFault::Twice,
        )?;
        self.add_client(name, column)
    }

    /// Adds a client with a new name.
    fn add_client(&mut self, name: &str, column: u32) -> Result<(), LineError>
        requires named { IsTrue (is_name name.now) }
        requires fresh { place name.now self.old.head.client_names.names ≡ None }
        requires few { length self.old.head.client_names.names < 64 }
        requires fits { column ≤ 7 }
        ensures { Meets result self.new self.old (Ok (after self.old (Declares name.now column))) }
    {
        self.begun.push(0)?;
        if self.head.client_names.intern(name).is_err() {
            return Err(LineError::Memory);
        }
        let empty = ColumnNumbers::of(Vec::new(self.alloc));
        let mut columns = std::mem::replace(&mut self.head.client_columns, empty).into_vec();
        columns.push(column)?;
        self.head.client_columns = ColumnNumbers::of(columns);
        self.head.columns = self.head.columns.max(column + 1);
        Ok(())
    }

    fn name(&mut self, word: &[u8]) -> Result<(), LineError>
        ensures { MeetsLine result self.new self.old (spec.name_line self.old word.now) }
    {
        need(places::in_keys(self.section), TextFault::Order)?;
        need(is_name(word), TextFault::Name)?;
        need(self.head.key_names.len() < 256, TextFault::Many)?;
        let name = name_text(word);
        need(self.head.key_names.find(name).is_none(), TextFault::Twice)?;
        self.add_key(name)
    }

    /// Adds a key with a new name.
    fn add_key(&mut self, name: &str) -> Result<(), LineError>
        requires named { IsTrue (is_name name.now) }
        requires fresh { place name.now self.old.head.key_names.names ≡ None }
        requires few { length self.old.head.key_names.names < 256 }
        ensures { Meets result self.new self.old (Ok (after self.old (NamesLine name.now))) }
    {
        if self.head.key_names.intern(name).is_err() {
            return Err(LineError::Memory);
        }
        self.section = Section::Keys;
        Ok(())
    }

    fn round(&mut self, rest: Option<&[u8]>) -> Result<(), LineError>
        ensures { MeetsLine result self.new self.old (spec.round_line self.old (words_behind rest.entry)) }
    {
        let word = one(rest).ok_or(TextFault::Form)?;
        need(places::before_round(self.section), TextFault::Order)?;
        need(
            is_text_of(u64::from(self.count) + 1, word),
            TextFault::Order,
        )?;
        need(self.count < 16, TextFault::Many)?;
        self.begin_round()
    }

    /// Takes the tables of the round that went on.
    fn take_tables(&mut self) -> RoundLog
        ensures round { result ≡ self.old.round }
        ensures left { self.new ≡ spec.without_round self.old }
    {
        let logs = std::mem::replace(&mut self.logs, Vec::new(self.alloc));
        let journals = std::mem::replace(&mut self.journals, Vec::new(self.alloc));
        let globals = std::mem::replace(&mut self.globals, Vec::new(self.alloc));
        RoundLog {
            logs: Logs::of(logs),
            journals: Journals::of(journals),
            globals: Globals::of(globals),
        }
    }

    /// The round that went on is read to its end; before the first there is none.
    fn close_round(&mut self) -> Result<(), LineError>
        ensures { Meets result self.new self.old (Ok (spec.closed_state self.old)) }
    {
        let round = self.take_tables();
        if self.count == 0 {
            return Ok(());
        }
        self.rounds.push(round)?;
        Ok(())
    }

    /// The next round begins.
    fn begin_round(&mut self) -> Result<(), LineError>
        requires few { self.old.count < 16 }
        ensures { Meets result self.new self.old (Ok (after self.old (Begins (self.old.count + 1)))) }
    {
        self.close_round()?;
        self.logs = empty_logs(self.alloc, self.head.columns)?;
        self.journals = empty_journals(self.alloc, self.head.size.n(), self.head.key_names.len())?;
        self.count += 1;
        self.section = Section::Round;
        Ok(())
    }

    fn column_ascends(&self, word: &[u8]) -> bool
        ensures { result ≡ spec.column_ascends self.now self.now.section word.now }
    {
        match self.section {
            Section::Log => !is_up_to(self.column, word),
            _ => true,
        }
    }

    fn column(&mut self, rest: Option<&[u8]>) -> Result<(), LineError>
        ensures { MeetsLine result self.new self.old (spec.column_line self.old (words_behind rest.entry)) }
    {
        let word = one(rest).ok_or(TextFault::Form)?;
        need(places::before_column(self.section), TextFault::Order)?;
        need(self.column_ascends(word), TextFault::Order)?;
        self.column = below(self.head.columns, word)?;
        self.section = Section::Column;
        Ok(())
    }

    fn replica(&self, word: &[u8]) -> Result<u32, TextFault>
        ensures { result ≡ spec.replica_of self.now word.now }
    {
        Ok(number(word, 0, u64::from(2 * self.head.size.f()))? as u32)
    }

    fn key(&self, word: &[u8]) -> Result<u32, TextFault>
        ensures { result ≡ spec.key_of self.now word.now }
    {
        need(is_name(word), TextFault::Name)?;
        match self.head.key_names.find(name_text(word)) {
            Some(key) => Ok(key),
            None => Err(TextFault::Unknown),
        }
    }

    /// The place of a client's name.
    fn client_place(&self, name: &[u8]) -> Option<u32>
        ensures { result ≡ spec.named_place self.now.head.client_names.names name.now }
    {
        if !is_name(name) {
            return None;
        }
        self.head.client_names.find(name_text(name))
    }

    /// The place of a key's name.
    fn key_place(&self, name: &[u8]) -> Option<u32>
        ensures { result ≡ spec.named_place self.now.head.key_names.names name.now }
    {
        if !is_name(name) {
            return None;
        }
        self.head.key_names.find(name_text(name))
    }

    fn cell_up_to(&self, replica: &[u8], name: &[u8]) -> bool
        ensures { result ≡ spec.cell_up_to self.now replica.now name.now }
    {
        if !is_number(replica) {
            return false;
        }
        let last = u64::from(self.replica);
        match value(replica) {
            None => false,
            Some(number) => {
                number < last
                    || number == last
                        && match self.key_place(name) {
                            None => false,
                            Some(key) => key <= self.key,
                        }
            }
        }
    }

    fn cell_ascends(&self, replica: &[u8], name: &[u8]) -> bool
        ensures { result ≡ spec.cell_ascends self.now self.now.section replica.now name.now }
    {
        match self.section {
            Section::Journal => !self.cell_up_to(replica, name),
            _ => true,
        }
    }

    fn cell(&mut self, rest: Option<&[u8]>) -> Result<(), LineError>
        ensures { MeetsLine result self.new self.old (spec.cell_line self.old (words_behind rest.entry)) }
    {
        let (replica, name) = two(rest).ok_or(TextFault::Form)?;
        need(places::before_cell(self.section), TextFault::Order)?;
        need(self.cell_ascends(replica, name), TextFault::Order)?;
        let replica = self.replica(replica)?;
        self.key = self.key(name)?;
        self.replica = replica;
        self.section = Section::Cell;
        Ok(())
    }

    fn globals(&mut self, rest: Option<&[u8]>) -> Result<(), LineError>
        ensures { MeetsLine result self.new self.old (spec.global_line self.old (words_behind rest.entry)) }
    {
        need(none_left(rest), TextFault::Form)?;
        need(places::before_cell(self.section), TextFault::Order)?;
        self.section = Section::Globals;
        Ok(())
    }

    fn end(&mut self, rest: Option<&[u8]>) -> Result<(), LineError>
        ensures { MeetsLine result self.new self.old (spec.end_line self.old (words_behind rest.entry)) }
    {
        need(none_left(rest), TextFault::Form)?;
        need(places::at_end(self.section), TextFault::Order)?;
        self.close_round()?;
        self.section = Section::Ended;
        Ok(())
    }

    /// The seq that comes next in the lines of a client; without a line of its own it is 1.
    fn next_seq(&self, name: &[u8]) -> u64
        ensures { result ≡ spec.next_seq self.now name.now }
    {
        match self.client_place(name) {
            None => 1,
            Some(client) => match self.begun.get(client as usize) {
                None => 1,
                Some(begun) => u64::from(*begun) + 1,
            },
        }
    }

    /// The attempt of a client's name and a seq.
    fn attempt(&self, name: &[u8], seq: &[u8]) -> Result<TxnId, TextFault>
        ensures { result ≡ spec.attempt_of self.now (name.now, seq.now) }
    {
        let seq = number(seq, 1, 16384)? as u32;
        need(is_name(name), TextFault::Name)?;
        match self.head.client_names.find(name_text(name)) {
            None => Err(TextFault::Unknown),
            Some(place) => Ok(TxnId {
                client: place + 1,
                seq,
            }),
        }
    }

    /// Puts a step that begins no attempt in the log.
    fn log(&mut self, step: Step) -> Result<(), LineError>
        requires { begun_after self.old.begun step ≡ self.old.begun }
        ensures { Meets result self.new self.old (Ok (after self.old (Logged 0 step))) }
    {
        push_step(&mut self.logs, self.column, step)?;
        self.section = Section::Log;
        Ok(())
    }

    fn begin(&mut self, rest: Option<&[u8]>) -> Result<(), LineError>
        ensures { MeetsLine result self.new self.old (spec.begin_line self.old (words_behind rest.entry)) }
    {
        let (id, replica) = two(rest).ok_or(TextFault::Form)?;
        let (name, seq) = cut_word(b'.', id).ok_or(TextFault::Form)?;
        need(places::in_log(self.section), TextFault::Order)?;
        need(is_text_of(self.next_seq(name), seq), TextFault::Order)?;
        let id = self.attempt(name, seq)?;
        let replica = self.replica(replica)?;
        let client = id.client;
        push_step(&mut self.logs, self.column, Step::Begin { client, replica })?;
        raise(&mut self.begun, client);
        self.section = Section::Log;
        Ok(())
    }

    fn unread(&mut self, rest: Option<&[u8]>) -> Result<(), LineError>
        ensures { MeetsLine result self.new self.old (spec.unread_line self.old (words_behind rest.entry)) }
    {
        let id = one(rest).ok_or(TextFault::Form)?;
        let (name, seq) = cut_word(b'.', id).ok_or(TextFault::Form)?;
        need(places::in_log(self.section), TextFault::Order)?;
        need(is_text_of(self.next_seq(name), seq), TextFault::Order)?;
        let id = self.attempt(name, seq)?;
        let client = id.client;
        push_step(&mut self.logs, self.column, Step::Unread { client })?;
        raise(&mut self.begun, client);
        self.section = Section::Log;
        Ok(())
    }

    fn read(&mut self, rest: Option<&[u8]>) -> Result<(), LineError>
        ensures { MeetsLine result self.new self.old (spec.read_line self.old (words_behind rest.entry)) }
    {
        let (id, key) = two(rest).ok_or(TextFault::Form)?;
        let (name, seq) = cut_word(b'.', id).ok_or(TextFault::Form)?;
        need(places::in_log(self.section), TextFault::Order)?;
        let id = self.attempt(name, seq)?;
        let key = self.key(key)?;
        self.log(Step::Read { id, key })
    }

    /// The write that the word is.
    fn write(&self, word: &[u8]) -> Result<WriteItem, TextFault>
        ensures { result ≡ spec.write_word self.now word.now }
    {
        let (name, text) = cut_word(b'=', word).ok_or(TextFault::Form)?;
        let value = written_value(self.head.version, text)?;
        let key = self.key(name)?;
        Ok(WriteItem { key, value })
    }

    /// The writes of the words of a text, the first fault from the left.
    fn writes(&self, text: Option<&[u8]>) -> Result<Vec<WriteItem>, LineError>
        ensures ok { IfOk result (λ v. spec.writes_of self.now (words_behind text.entry) ≡ Ok v.items) }
        ensures err { IfErr result (λ e. Fails e (spec.writes_of self.now (words_behind text.entry))) }
    {
        let mut writes = Vec::new(self.alloc);
        let mut left = text;
        while let Some(behind) = left {
            let (word, rest) = next_word(behind);
            writes.push(self.write(word)?)?;
            left = rest;
        }
        Ok(writes)
    }

    fn stamp(&mut self, rest: Option<&[u8]>) -> Result<(), LineError>
        ensures { MeetsLine result self.new self.old (spec.stamp_line self.old (words_behind rest.entry)) }
    {
        let (id, rest) = first(rest).ok_or(TextFault::Form)?;
        let (name, seq) = cut_word(b'.', id).ok_or(TextFault::Form)?;
        let (clock, rest) = first(rest).ok_or(TextFault::Form)?;
        need(are_writes(rest), TextFault::Form)?;
        need(places::in_log(self.section), TextFault::Order)?;
        let id = self.attempt(name, seq)?;
        let clock = number(clock, 0, LAST_CLOCK)?;
        let writes = Writes::of(self.writes(rest)?);
        self.log(Step::Stamp { id, clock, writes })
    }

    /// The attempt of a line of an attempt alone.
    fn alone(&self, rest: Option<&[u8]>) -> Result<TxnId, TextFault>
        ensures { result ≡ spec.alone_of self.now (words_behind rest.entry) }
    {
        let id = one(rest).ok_or(TextFault::Form)?;
        let (name, seq) = cut_word(b'.', id).ok_or(TextFault::Form)?;
        need(places::in_log(self.section), TextFault::Order)?;
        self.attempt(name, seq)
    }

    /// The attempt and the view of a line of both.
    fn viewed(&self, rest: Option<&[u8]>) -> Result<(TxnId, u32), TextFault>
        ensures { result ≡ spec.viewed_of self.now (words_behind rest.entry) }
    {
        let (id, view) = two(rest).ok_or(TextFault::Form)?;
        let (name, seq) = cut_word(b'.', id).ok_or(TextFault::Form)?;
        need(places::in_log(self.section), TextFault::Order)?;
        let id = self.attempt(name, seq)?;
        let view = number(view, 1, 15)? as u32;
        Ok((id, view))
    }

    fn validate(&mut self, rest: Option<&[u8]>) -> Result<(), LineError>
        ensures { MeetsLine result self.new self.old (spec.alone_line spec.validate_step self.old (words_behind rest.entry)) }
    {
        let id = self.alone(rest)?;
        self.log(Step::Validate { id })
    }

    fn rule(&mut self, rest: Option<&[u8]>) -> Result<(), LineError>
        ensures { MeetsLine result self.new self.old (spec.alone_line spec.rule_step self.old (words_behind rest.entry)) }
    {
        let id = self.alone(rest)?;
        self.log(Step::Rule { id })
    }

    fn again(&mut self, rest: Option<&[u8]>) -> Result<(), LineError>
        ensures { MeetsLine result self.new self.old (spec.alone_line spec.again_step self.old (words_behind rest.entry)) }
    {
        let id = self.alone(rest)?;
        self.log(Step::Again { id })
    }

    fn stop(&mut self, rest: Option<&[u8]>) -> Result<(), LineError>
        ensures { MeetsLine result self.new self.old (spec.alone_line spec.stop_step self.old (words_behind rest.entry)) }
    {
        let id = self.alone(rest)?;
        self.log(Step::Stop { id })
    }

    fn takeover(&mut self, rest: Option<&[u8]>) -> Result<(), LineError>
        ensures { MeetsLine result self.new self.old (spec.view_line spec.takeover_step self.old (words_behind rest.entry)) }
    {
        let (id, view) = self.viewed(rest)?;
        self.log(Step::Takeover { id, view })
    }

    fn pick(&mut self, rest: Option<&[u8]>) -> Result<(), LineError>
        ensures { MeetsLine result self.new self.old (spec.view_line spec.pick_step self.old (words_behind rest.entry)) }
    {
        let (id, view) = self.viewed(rest)?;
        self.log(Step::Pick { id, view })
    }

    fn take(&mut self, rest: Option<&[u8]>) -> Result<(), LineError>
        ensures { MeetsLine result self.new self.old (spec.take_line self.old (words_behind rest.entry)) }
    {
        let word = one(rest).ok_or(TextFault::Form)?;
        need(places::in_log(self.section), TextFault::Order)?;
        let number = number(word, 1, u64::MAX)?;
        self.log(Step::Take { number })
    }

    fn turn(&mut self, replica: &[u8], rest: Option<&[u8]>) -> Result<(), LineError>
        ensures { MeetsLine result self.new self.old (spec.turn_line self.old replica.now (words_behind rest.entry)) }
    {
        let (name, rest) = first(rest).ok_or(TextFault::Form)?;
        let shape = act_shape(rest)?;
        need(places::in_log(self.section), TextFault::Order)?;
        let replica = self.replica(replica)?;
        let key = self.key(name)?;
        let (act, answer) = turn(self.head.version, shape)?;
        let call = KeyCall { replica, key, act };
        self.log(Step::Key { call, answer })
    }

    fn key_line(&mut self, rest: Option<&[u8]>) -> Result<(), LineError>
        ensures { MeetsLine result self.new self.old (spec.key_line self.old (words_behind rest.entry)) }
    {
        let (word, rest) = first(rest).ok_or(TextFault::Form)?;
        if none_left(rest) {
            self.name(word)
        } else {
            self.turn(word, rest)
        }
    }

    fn entry(&mut self, seat: &[u8], rest: Option<&[u8]>) -> Result<(), LineError>
        ensures { MeetsLine result self.new self.old (spec.entry_line self.old seat.now (words_behind rest.entry)) }
    {
        let shape = act_shape(rest)?;
        need(places::in_journal(self.section), TextFault::Order)?;
        let seat = below(self.head.columns, seat)?;
        let (act, answer) = turn(self.head.version, shape)?;
        let entry = JournalEntry { seat, act, answer };
        push_entry(&mut self.journals, self.replica, self.key, entry)?;
        self.section = Section::Journal;
        Ok(())
    }

    /// Adds a global line whose fields fit.
    fn change(&mut self, line: GlobalLine, answer: GlobalAnswer) -> Result<(), LineError>
        ensures { MeetsLine result self.new self.old (spec.changed self.old line answer) }
    {
        need(self.changes < 256, TextFault::Many)?;
        self.globals.push(GlobalEntry { line, answer })?;
        self.changes += 1;
        self.section = Section::Changes;
        Ok(())
    }

    fn wipe(&mut self, rest: Option<&[u8]>) -> Result<(), LineError>
        ensures { MeetsLine result self.new self.old (spec.wipe_line self.old (words_behind rest.entry)) }
    {
        let word = one(rest).ok_or(TextFault::Form)?;
        need(places::in_changes(self.section), TextFault::Order)?;
        let replica = self.replica(word)?;
        self.change(GlobalLine::Wipe(replica), GlobalAnswer::Ok)
    }

    fn ask(&mut self, rest: Option<&[u8]>) -> Result<(), LineError>
        ensures { MeetsLine result self.new self.old (spec.ask_line self.old (words_behind rest.entry)) }
    {
        let word = one(rest).ok_or(TextFault::Form)?;
        need(places::in_changes(self.section), TextFault::Order)?;
        let epoch = number(word, 1, 1000)? as u32;
        self.change(GlobalLine::Ask(epoch), GlobalAnswer::Ok)
    }

    /// The epoch and the answer of a line of both.
    fn epoch(&self, replier: Replier, rest: Option<&[u8]>) -> Result<(u32, GlobalAnswer), TextFault>
        ensures { result ≡ spec.epoch_of replier self.now (words_behind rest.entry) }
    {
        let (epoch, rest) = first(rest).ok_or(TextFault::Form)?;
        let shape = reply_shape(replier, rest)?;
        need(places::in_changes(self.section), TextFault::Order)?;
        let epoch = number(epoch, 1, 1000)? as u32;
        Ok((epoch, reply(shape)?))
    }

    /// The epoch, the replica and the answer of a line of the three.
    fn member(
        &self,
        replier: Replier,
        rest: Option<&[u8]>,
    ) -> Result<(u32, u32, GlobalAnswer), TextFault>
        ensures { result ≡ spec.member_of replier self.now (words_behind rest.entry) }
    {
        let (epoch, rest) = first(rest).ok_or(TextFault::Form)?;
        let (replica, rest) = first(rest).ok_or(TextFault::Form)?;
        let shape = reply_shape(replier, rest)?;
        need(places::in_changes(self.section), TextFault::Order)?;
        let epoch = number(epoch, 1, 1000)? as u32;
        let replica = self.replica(replica)?;
        Ok((epoch, replica, reply(shape)?))
    }

    fn promise(&mut self, rest: Option<&[u8]>) -> Result<(), LineError>
        ensures { MeetsLine result self.new self.old (spec.promise_line self.old (words_behind rest.entry)) }
    {
        let (epoch, replica, answer) = self.member(Replier::Promise, rest)?;
        self.change(GlobalLine::Promise { epoch, replica }, answer)
    }

    fn merge(&mut self, rest: Option<&[u8]>) -> Result<(), LineError>
        ensures { MeetsLine result self.new self.old (spec.merge_line self.old (words_behind rest.entry)) }
    {
        let (epoch, answer) = self.epoch(Replier::Merge, rest)?;
        self.change(GlobalLine::Merge(epoch), answer)
    }

    fn adopt(&mut self, rest: Option<&[u8]>) -> Result<(), LineError>
        ensures { MeetsLine result self.new self.old (spec.adopt_line self.old (words_behind rest.entry)) }
    {
        let (epoch, replica, answer) = self.member(Replier::Adopt, rest)?;
        self.change(GlobalLine::Adopt { epoch, replica }, answer)
    }

    fn enter(&mut self, rest: Option<&[u8]>) -> Result<(), LineError>
        ensures { MeetsLine result self.new self.old (spec.enter_line self.old (words_behind rest.entry)) }
    {
        let (epoch, answer) = self.epoch(Replier::Enter, rest)?;
        self.change(GlobalLine::Enter(epoch), answer)
    }

    fn by_keyword(&mut self, keyword: Keyword, rest: Option<&[u8]>) -> Result<(), LineError>
        ensures { MeetsLine result self.new self.old (spec.by_keyword self.old keyword (words_behind rest.entry)) }
    {
        match keyword {
            Keyword::Opening => self.version(rest),
            Keyword::Size => self.size(rest),
            Keyword::Client => self.client(rest),
            Keyword::Key => self.key_line(rest),
            Keyword::Round => self.round(rest),
            Keyword::Column => self.column(rest),
            Keyword::Cell => self.cell(rest),
            Keyword::Globals => self.globals(rest),
            Keyword::End => self.end(rest),
            Keyword::Begin => self.begin(rest),
            Keyword::Unread => self.unread(rest),
            Keyword::Read => self.read(rest),
            Keyword::Stamp => self.stamp(rest),
            Keyword::Validate => self.validate(rest),
            Keyword::Take => self.take(rest),
            Keyword::Rule => self.rule(rest),
            Keyword::Again => self.again(rest),
            Keyword::Stop => self.stop(rest),
            Keyword::Takeover => self.takeover(rest),
            Keyword::Pick => self.pick(rest),
            Keyword::Wipe => self.wipe(rest),
            Keyword::Ask => self.ask(rest),
            Keyword::Promise => self.promise(rest),
            Keyword::Merge => self.merge(rest),
            Keyword::Adopt => self.adopt(rest),
            Keyword::Enter => self.enter(rest),
        }
    }

    /// Takes the next line.
    pub fn line(&mut self, line: &[u8]) -> Result<(), LineError>
        ensures { Meets result self.new self.old (spec.line_result self.old line.now) }
    {
        let seen = look(line);
        need(seen.printable, TextFault::Byte)?;
        need(!seen.empty_word, TextFault::Form)?;
        let (word, rest) = next_word(line);
        if begins_with_digit(word) {
            return self.entry(word, rest);
        }
        let keyword = keyword(word).ok_or(TextFault::Form)?;
        self.by_keyword(keyword, rest)
    }

    /// Whether the trace may end here.
    pub fn may_end(&self) -> bool
        ensures { result ≡ spec.ended self.now.section }
    {
        places::ended(self.section)
    }
}

impl Reader {
    /// The head; None until the first round has begun.
    pub fn head(&self) -> Option<&Head>
        ensures { spec.seen_head result ≡ spec.head_of self.now }
    {
        if self.count == 0 {
            return None;
        }
        Some(&self.head)
    }

    /// The first round that was read to its end and not taken yet.
    pub fn take_round(&mut self) -> Option<RoundLog>
        ensures { spec.IsTaken self.old result self.new }
    {
        if self.rounds.is_empty() {
            return None;
        }
        Some(self.rounds.remove(0))
    }

    /// The run of what was read.
    pub fn run(self) -> Run
        requires shape { HasShape (history self.head self.rounds) }
        ensures { result ≡ history self.head self.rounds }
    {
        Run::new(self.head, Rounds::of(self.rounds))
    }
}
