//! What the lines of a script said.
ghost use Rattle.std.specs.Prelude.{◌≡◌, ◌<◌, ◌≤◌, IsTrue, IsOk, IfOk, Ok, None, length};
ghost use Rattle.mk_spelling.specs.Fields.{found, place};
ghost use Rattle.mk_spelling.specs.Words.{is_name, words};
ghost use Rattle.mk_spelling.specs.Words.{words_behind};
ghost use Rattle.mk_spelling.specs.declared.fault.TextFault.TheVariants.{Unknown};
ghost use Rattle.mk_script.specs.Scripts as scripts;
ghost use Rattle.mk_script.specs.Scripts.{nothing, names_of, client_number, script_of};
ghost use Rattle.mk_script.specs.Whole.{IsWhole};
ghost use Rattle.mk_script.specs.Grammar.{after};
ghost use Rattle.mk_script.specs.Grammar.Line.{Declares, NextRound};
ghost use Rattle.mk_script.specs.Seen.{Meets, mentioned, added_txn};
ghost use Rattle.mk_script.specs.ItemShapes.{mentions_of};
ghost use Rattle.mk_script.specs.Faults as spec;

use crate::error::LineError;
use crate::fields;
use crate::items::{are_items, count_items};
use crate::keys::number_items;
use crate::lines::{ClientLine, FaultLine, Lines, Name, Round, StopLine, TakeoverLine, TxnLine};
use crate::script::Script;
use crate::words::{Keyword, Section};
use mk_names::Names;
use mk_quorum::Size;
use mk_text::{
    TextFault, cut, five, is_name, look, name_text, need, next_word, none_left, number, one, three,
    two, two_then,
};
use mk_txn::{NoMemory, TxnId};
use mk_words::GlobalLine;
use std::alloc::Global;
use std::marker::Model;

/// What the lines of a script said so far.
#[derive(Drop)]
pub struct Reader {
    alloc: Global,
    section: Section,
    version: u32,
    size: u32,
    names: Names,
    clients: Vec<ClientLine>,
    keys: Names,
    retry: Option<u32>,
    faults: Vec<FaultLine>,
    stops: Vec<StopLine>,
    rounds: Vec<Round>,
    txns: Vec<TxnLine>,
    takeovers: Vec<TakeoverLine>,
    globals: Vec<GlobalLine>,
    txn_lines: u32,
    takeover_lines: u32,
    global_lines: u32,
}

impl Model for Reader {
    ghost use Rattle.std.specs.Prelude.{length};
    ghost use Rattle.mk_script.specs.Scripts.{State, txn_count, takeover_count, global_count};
    ghost use Rattle.mk_script.specs.Readers.{IsIndexed, IsCount};

    ghost Value = { State };

    ghost view = { λ a. record { section = a.section; version = a.version; size = a.size; clients = a.clients.items; keys = a.keys.names; retry = a.retry; faults = a.faults.items; stops = a.stops.items; rounds = a.rounds.items; round = record { txns = a.txns.items; takeovers = a.takeovers.items; globals = a.globals.items } } };

    ghost invariant = { λ a. IsIndexed a.size a.names a.keys a.clients.items × IsCount txn_count a.rounds.items (length a.txns.items) a.txn_lines × IsCount takeover_count a.rounds.items (length a.takeovers.items) a.takeover_lines × IsCount global_count a.rounds.items (length a.globals.items) a.global_lines };
}

impl Reader {
    pub fn new(alloc: Global) -> Reader
        ensures { result ≡ nothing }
    {
        Reader {
            alloc,
            section: Section::Start,
            version: 0,
            size: 0,
            names: Names::new(alloc),
            clients: Vec::new(alloc),
            keys: Names::new(alloc),
            retry: None,
            faults: Vec::new(alloc),
            stops: Vec::new(alloc),
            rounds: Vec::new(alloc),
            txns: Vec::new(alloc),
            takeovers: Vec::new(alloc),
            globals: Vec::new(alloc),
            txn_lines: 0,
            takeover_lines: 0,
            global_lines: 0,
        }
    }

    fn version(&mut self, rest: Option<&[u8]>) -> Result<(), LineError>
        ensures { Meets result self.new (spec.version_result self.old (words_behind rest.entry)) }
    {
        let word = one(rest).ok_or(TextFault::Form)?;
        need(fields::at_start(self.section), TextFault::Order)?;
        self.version = fields::version(word)?;
        self.section = Section::Opened;
        Ok(())
    }

    fn size(&mut self, rest: Option<&[u8]>) -> Result<(), LineError>
        ensures { Meets result self.new (spec.size_result self.old (words_behind rest.entry)) }
    {
        let word = one(rest).ok_or(TextFault::Form)?;
        need(fields::at_size(self.section), TextFault::Order)?;
        self.size = number(word, 1, 3)? as u32;
        self.section = Section::Prelude;
        Ok(())
    }

    fn client(&mut self, rest: Option<&[u8]>) -> Result<(), LineError>
        ensures { Meets result self.new (spec.client_result self.old (words_behind rest.entry)) }
    {
        let (name, column, home) = three(rest).ok_or(TextFault::Form)?;
        need(fields::in_prelude(self.section), TextFault::Order)?;
        need(is_name(name), TextFault::Name)?;
        let column = number(column, 0, 7)? as u32;
        let home = number(home, 0, u64::from(2 * self.size))? as u32;
        need(self.clients.len() < 64, TextFault::Many)?;
        let name = name_text(name);
        need(self.names.find(name).is_none(), TextFault::Twice)?;
        self.add_client(name, column, home)
    }

    /// Adds a client with a new name.
    fn add_client(&mut self, name: &str, column: u32, home: u32) -> Result<(), LineError>
        requires named { IsTrue (is_name name.now) }
        requires fresh { place name.now (names_of self.old.clients) ≡ None }
        requires few { length self.old.clients < 64 }
        ensures { Meets result self.new (Ok (after self.old (Declares name.now column home))) }
    {
        self.clients.reserve(1)?;
        let text = Name::of(String::from_str(self.alloc, name)?);
        self.names.intern(name)?;
        self.clients.push_reserved(ClientLine {
            name: text,
            column,
            home,
        });
        Ok(())
    }

    fn retry(&mut self, rest: Option<&[u8]>) -> Result<(), LineError>
        ensures { Meets result self.new (spec.retry_result self.old (words_behind rest.entry)) }
    {
        let word = one(rest).ok_or(TextFault::Form)?;
        need(fields::in_prelude(self.section), TextFault::Order)?;
        let n = number(word, 0, 3)? as u32;
        need(self.retry.is_none(), TextFault::Twice)?;
        self.retry = Some(n);
        Ok(())
    }

    /// The number of a declared client.
    fn client_number(&self, name: &[u8]) -> Result<u32, TextFault>
        requires { IsTrue (is_name name.now) }
        ensures { result ≡ found Unknown (client_number self.now name.now) }
    {
        match self.names.find(name_text(name)) {
            None => Err(TextFault::Unknown),
            Some(place) => Ok(place + 1),
        }
    }

    /// The attempt of a client's name and a seq.
    fn attempt(&self, name: &[u8], seq: &[u8]) -> Result<TxnId, TextFault>
        ensures { result ≡ spec.attempt_of self.now (name.now, seq.now) }
    {
        let seq = number(seq, 1, 16384)? as u32;
        need(is_name(name), TextFault::Name)?;
        let client = self.client_number(name)?;
        Ok(TxnId { client, seq })
    }

    fn fault(&mut self, rest: Option<&[u8]>) -> Result<(), LineError>
        ensures { Meets result self.new (spec.fault_result self.old (words_behind rest.entry)) }
    {
        let (kind, id, replica, nth, fate) = five(rest).ok_or(TextFault::Form)?;
        let (name, seq) = cut(b'.', id).ok_or(TextFault::Form)?;
        need(fields::in_prelude(self.section), TextFault::Order)?;
        let kind = fields::kind(kind)?;
        let id = self.attempt(name, seq)?;
        let replica = number(replica, 0, u64::from(2 * self.size))? as u32;
        let nth = number(nth, 1, 255)?;
        let fate = fields::fate(fate)?;
        let fault = FaultLine {
            kind,
            id,
            replica,
            nth,
            fate,
        };
        need(self.faults.len() + self.stops.len() < 1024, TextFault::Many)?;
        need(!fields::has_fault(&self.faults, &fault), TextFault::Twice)?;
        self.faults.push(fault)?;
        Ok(())
    }

    fn stop(&mut self, rest: Option<&[u8]>) -> Result<(), LineError>
        ensures { Meets result self.new (spec.stop_result self.old (words_behind rest.entry)) }
    {
        let (id, point) = two(rest).ok_or(TextFault::Form)?;
        let (name, seq) = cut(b'.', id).ok_or(TextFault::Form)?;
        need(fields::in_prelude(self.section), TextFault::Order)?;
        let id = self.attempt(name, seq)?;
        let point = fields::point(point)?;
        let stop = StopLine { id, point };
        need(self.faults.len() + self.stops.len() < 1024, TextFault::Many)?;
        need(!fields::has_stop(&self.stops, &stop), TextFault::Twice)?;
        self.stops.push(stop)?;
        Ok(())
    }

    fn txn(&mut self, rest: Option<&[u8]>) -> Result<(), LineError>
        ensures { Meets result self.new (spec.txn_result self.old (words_behind rest.entry)) }
    {
        let (name, clock, items) = two_then(rest).ok_or(TextFault::Form)?;
        need(are_items(self.version, items), TextFault::Form)?;
        need(fields::in_rounds(self.section), TextFault::Order)?;
        need(is_name(name), TextFault::Name)?;
        let client = self.client_number(name)?;
        let clock = number(clock, 0, LAST_CLOCK)?;
        let many = count_items(items)?;
        need(many <= 16, TextFault::Many)?;
        self.add_txn(client, clock, items)
    }

    /// Adds a transaction whose items pass their tests.
    fn add_txn(&mut self, client: u32, clock: u64, items: &[u8]) -> Result<(), LineError>
        requires { IsOk (mentions_of (words items.now)) }
        ensures { Meets result self.new (added_txn self.old client clock (mentioned (words items.now))) }
    {
        let items = number_items(self.alloc, &mut self.keys, items)?;
        need(self.txn_lines < 4096, TextFault::Many)?;
        self.txns.push(TxnLine {
            client,
            clock,
            items: Lines::of(items),
        })?;
        self.section = Section::Round;
        self.txn_lines += 1;
        Ok(())
    }

    fn takeover(&mut self, rest: Option<&[u8]>) -> Result<(), LineError>
        ensures { Meets result self.new (spec.takeover_result self.old (words_behind rest.entry)) }
    {
        let (id, view) = two(rest).ok_or(TextFault::Form)?;
        let (name, seq) = cut(b'.', id).ok_or(TextFault::Form)?;
        need(fields::in_rounds(self.section), TextFault::Order)?;
        let id = self.attempt(name, seq)?;
        let view = number(view, 1, 15)? as u32;
        need(self.takeover_lines < 1024, TextFault::Many)?;
        self.takeovers.push(TakeoverLine { id, view })?;
        self.section = Section::Round;
        self.takeover_lines += 1;
        Ok(())
    }

    /// Adds a global line whose fields fit.
    fn global(&mut self, line: GlobalLine) -> Result<(), LineError>
        ensures { Meets result self.new (spec.global_result self.old line) }
    {
        need(self.global_lines < 256, TextFault::Many)?;
        self.globals.push(line)?;
        self.section = Section::Globals;
        self.global_lines += 1;
        Ok(())
    }

    fn wipe(&mut self, rest: Option<&[u8]>) -> Result<(), LineError>
        ensures { Meets result self.new (spec.wipe_result self.old (words_behind rest.entry)) }
    {
        let word = one(rest).ok_or(TextFault::Form)?;
        need(fields::behind_prelude(self.section), TextFault::Order)?;
        let replica = number(word, 0, u64::from(2 * self.size))? as u32;
        self.global(GlobalLine::Wipe(replica))
    }

    fn ask(&mut self, rest: Option<&[u8]>) -> Result<(), LineError>
        ensures { Meets result self.new (spec.epoch_result spec.ask_line self.old (words_behind rest.entry)) }
    {
        let word = one(rest).ok_or(TextFault::Form)?;
        need(fields::behind_prelude(self.section), TextFault::Order)?;
        let epoch = number(word, 1, 1000)? as u32;
        self.global(GlobalLine::Ask(epoch))
    }

    fn promise(&mut self, rest: Option<&[u8]>) -> Result<(), LineError>
        ensures { Meets result self.new (spec.member_result spec.promise_line self.old (words_behind rest.entry)) }
    {
        let (epoch, replica) = two(rest).ok_or(TextFault::Form)?;
        need(fields::behind_prelude(self.section), TextFault::Order)?;
        let epoch = number(epoch, 1, 1000)? as u32;
        let replica = number(replica, 0, u64::from(2 * self.size))? as u32;
        self.global(GlobalLine::Promise { epoch, replica })
    }

    fn merge(&mut self, rest: Option<&[u8]>) -> Result<(), LineError>
        ensures { Meets result self.new (spec.epoch_result spec.merge_line self.old (words_behind rest.entry)) }
    {
        let word = one(rest).ok_or(TextFault::Form)?;
        need(fields::behind_prelude(self.section), TextFault::Order)?;
        let epoch = number(word, 1, 1000)? as u32;
        self.global(GlobalLine::Merge(epoch))
    }

    fn adopt(&mut self, rest: Option<&[u8]>) -> Result<(), LineError>
        ensures { Meets result self.new (spec.member_result spec.adopt_line self.old (words_behind rest.entry)) }
    {
        let (epoch, replica) = two(rest).ok_or(TextFault::Form)?;
        need(fields::behind_prelude(self.section), TextFault::Order)?;
        let epoch = number(epoch, 1, 1000)? as u32;
        let replica = number(replica, 0, u64::from(2 * self.size))? as u32;
        self.global(GlobalLine::Adopt { epoch, replica })
    }

    fn enter(&mut self, rest: Option<&[u8]>) -> Result<(), LineError>
        ensures { Meets result self.new (spec.epoch_result spec.enter_line self.old (words_behind rest.entry)) }
    {
        let word = one(rest).ok_or(TextFault::Form)?;
        need(fields::behind_prelude(self.section), TextFault::Order)?;
        let epoch = number(word, 1, 1000)? as u32;
        self.global(GlobalLine::Enter(epoch))
    }

    fn round(&mut self, rest: Option<&[u8]>) -> Result<(), LineError>
        ensures { Meets result self.new (spec.round_result self.old (words_behind rest.entry)) }
    {
        need(none_left(rest), TextFault::Form)?;
        need(fields::behind_prelude(self.section), TextFault::Order)?;
        need(self.rounds.len() < 15, TextFault::Many)?;
        self.next_round()
    }

    /// The round ends, and an empty one goes on.
    fn next_round(&mut self) -> Result<(), LineError>
        ensures { Meets result self.new (Ok (after self.old NextRound)) }
    {
        self.rounds.reserve(1)?;
        let txns = std::mem::replace(&mut self.txns, Vec::new(self.alloc));
        let takeovers = std::mem::replace(&mut self.takeovers, Vec::new(self.alloc));
        let globals = std::mem::replace(&mut self.globals, Vec::new(self.alloc));
        self.rounds.push_reserved(Round {
            txns: Lines::of(txns),
            takeovers: Lines::of(takeovers),
            globals: Lines::of(globals),
        });
        self.section = Section::Round;
        Ok(())
    }

    fn by_keyword(&mut self, keyword: Keyword, rest: Option<&[u8]>) -> Result<(), LineError>
        ensures { Meets result self.new (spec.by_keyword self.old keyword (words_behind rest.entry)) }
    {
        match keyword {
            Keyword::Meerkat => self.version(rest),
            Keyword::Size => self.size(rest),
            Keyword::Client => self.client(rest),
            Keyword::Retry => self.retry(rest),
            Keyword::Fault => self.fault(rest),
            Keyword::Stop => self.stop(rest),
            Keyword::Txn => self.txn(rest),
            Keyword::Takeover => self.takeover(rest),
            Keyword::Wipe => self.wipe(rest),
            Keyword::Ask => self.ask(rest),
            Keyword::Promise => self.promise(rest),
            Keyword::Merge => self.merge(rest),
            Keyword::Adopt => self.adopt(rest),
            Keyword::Enter => self.enter(rest),
            Keyword::Round => self.round(rest),
        }
    }

    /// Takes the next line.
    pub fn line(&mut self, line: &[u8]) -> Result<(), LineError>
        ensures { Meets result self.new (spec.line_result self.old line.now) }
    {
        let seen = look(line);
        need(seen.printable, TextFault::Byte)?;
        if is_passed_over(line) {
            return Ok(());
        }
        need(!seen.empty_word, TextFault::Form)?;
        let (first, rest) = next_word(line);
        let keyword = fields::keyword(first).ok_or(TextFault::Form)?;
        self.by_keyword(keyword, rest)
    }

    /// The script, where its last round ends here.
    pub fn script(self) -> Result<Script, NoMemory>
        requires sized { (1 ≤ self.size) × (self.size ≤ 3) }
        requires whole { IsWhole (script_of self) }
        ensures { IfOk result (λ s. s ≡ script_of self) }
    {
        let size = Size::new(self.size).unwrap();
        let mut rounds = self.rounds;
        rounds.push(Round {
            txns: Lines::of(self.txns),
            takeovers: Lines::of(self.takeovers),
            globals: Lines::of(self.globals),
        })?;
        Ok(Script {
            version: self.version,
            size,
            clients: Lines::of(self.clients),
            keys: self.keys,
            retry: or_zero(self.retry),
            faults: Lines::of(self.faults),
            stops: Lines::of(self.stops),
            rounds: Lines::of(rounds),
        })
    }

    /// Whether the script may end here.
    pub fn end(&self) -> Result<(), LineError>
        ensures { Meets result self.now (spec.end_result self.now) }
    {
        need(fields::behind_prelude(self.section), TextFault::Order)?;
        Ok(())
    }
}

/// The greatest clock, 2^61.
const LAST_CLOCK: u64 = 2305843009213693952;

/// A line without bytes, and one that begins with `#`.
fn is_passed_over(line: &[u8]) -> bool
    ensures { result ≡ spec.is_passed_over line.now }
{
    match line {
        [] => true,
        [first, ..] => *first == b'#',
    }
}

fn or_zero(n: Option<u32>) -> u32
    ensures { result ≡ scripts.or_zero n }
{
    match n {
        None => 0,
        Some(n) => n,
    }
}
