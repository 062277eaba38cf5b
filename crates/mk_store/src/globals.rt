//! The global lines of a round, each with the word of its replica.
ghost use Rattle.std.specs.Prelude.{◌≡◌, ◌≤◌, ◌∷◌, [], List, length, IfOk, OnOk};
ghost use Rattle.mk_history.specs.Histories.{History};
ghost use Rattle.mk_history.specs.Wholes.{WholeState, after_global};
ghost use Rattle.mk_history.specs.declared.RoundLog.{RoundLog as Round};
ghost use Rattle.mk_script.specs.Scripts.{ScriptParts};
ghost use Rattle.mk_snap.specs.Snapshots.{SnapStands};
ghost use Rattle.mk_state.specs.Standings.{MayDo, WasDone};
ghost use Rattle.mk_store.specs.Words.{WordsRead, FaultsAreCounted, faults_in};
ghost use Rattle.mk_store.specs.Globals.{word_place as place_for, MayDoLines, WereDone};

use mk_io::EpochWord;
use mk_kept::{GlobalAnswer, GlobalEntry, GlobalLine, Head};
use mk_quorum::Size;
use mk_round::Store;
use mk_shape::line_fits;
use mk_txn::NoMemory;
use std::alloc::Global;

// The number of the replica whose word goes with the line.
fn word_place(size: Size, line: GlobalLine) -> u32
    ensures { result ≡ place_for size line }
{
    match line {
        GlobalLine::Promise { replica, .. } | GlobalLine::Adopt { replica, .. } => replica,
        GlobalLine::Merge(epoch) => epoch % size.n(),
        _ => 0,
    }
}

// Does the line.
fn do_line<W: EpochWord>(
    size: Size,
    store: &mut Store,
    line: GlobalLine,
    words: &mut [W],
) -> Result<GlobalAnswer, NoMemory>
    requires may { (run : History) × (state : WholeState) × MayDo SnapStands run state store.old.whole line × WordsRead W.kept state.epochs words.old }
    requires size { size ≡ store.old.whole.faults }
    requires small { size ≤ 3 }
    requires words { length words.old ≡ 7 }
    ensures done { IfOk result (λ answer. (run : History) (state : WholeState) → MayDo SnapStands run state store.old.whole line → WasDone SnapStands run state line answer store.new.whole) }
    ensures words { IfOk result (λ answer. (run : History) (state : WholeState) → MayDo SnapStands run state store.old.whole line → WordsRead W.kept state.epochs words.old →
        WordsRead W.kept (let next = after_global run state (record { line = line; answer = answer }) in next.epochs) words.new) }
    ensures faults { IfOk result (λ answer. FaultsAreCounted W.faults words.old words.new (λ r. faults_in r (record { line = line; answer = answer } ∷ []))) }
    ensures rest { store.new ≡ record store.old { whole = store.new.whole } }
{
    let place = word_place(size, line);
    store.do_line(line, &mut words[place as usize])
}

/// Does the global lines of a round behind its work, each with the word of its replica, and gives them with their answers.
pub(crate) fn do_lines<W: EpochWord>(
    alloc: Global,
    head: &Head,
    store: &mut Store,
    lines: &[GlobalLine],
    words: &mut [W],
) -> Result<Vec<GlobalEntry>, NoMemory>
    requires { (script : ScriptParts) × (done : List Round) × (round : Round) × MayDoLines W.kept script done round head.now store.old lines.now words.old }
    ensures { IfOk result (λ entries. (script : ScriptParts) (done : List Round) (round : Round) → MayDoLines W.kept script done round head.now store.old lines.now words.old →
        WereDone W.kept W.faults script done round store.old store.new lines.now words.old words.new entries.items) }
{
    mk_replay_laws::lines_are_ready();
    let mut entries = Vec::new(alloc);
    for line in lines {
        let answer = do_line(head.size, store, *line, words)?;
        let entry = GlobalEntry {
            line: *line,
            answer,
        };
        // No run of a script leaves its ranges, as below.
        if !line_fits(head, &entry) {
            return Err(NoMemory);
        }
        entries.push(entry)?;
    }
    Ok(entries)
}
