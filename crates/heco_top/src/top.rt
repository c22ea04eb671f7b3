ghost use Rattle.std.specs.Prelude.{◌≡◌, ◌≢◌, [], false, IsTrue, MatchOption, map};
ghost use Rattle.heco_outside.specs.Causes.{Rose};
ghost use Rattle.heco_jobs.specs.Agents.{agents, picking};
ghost use Rattle.heco_jobs.specs.Endings.{JobEnds};
ghost use Rattle.heco_jobs.specs.Laws.{Stands, HasFiles, IsUntouched, IsOkOrMemory, IsNoFault};
ghost use Rattle.heco_jobs.specs.Lines.{line_of, Reports};
ghost use Rattle.heco_jobs.specs.Outsides.{outside};
ghost use Rattle.heco_jobs.specs.Plans.{IsCause};
ghost use Rattle.heco_jobs.specs.Words.{texts};
ghost use Rattle.heco_top.specs.Answers.{HasCause, Untouched, PickerLeft, PassesLeft, Ends, FollowsPlan, DoneIfOk, PrintsPlain, PrintsExec, PrintsPair, PrintsMeasure};
ghost use Rattle.heco_top.specs.Answers.{PrintsWithinBounds, IsClearIn, IsReadyIn};
ghost use Rattle.heco_top.specs.Commands.{command_of, plan_of, job_of, asks, runs_passes};

use crate::command::{Command, command_of};
use crate::gather::gather;
use heco_jobs::{Outcome, Refusal, finish, report_outcome};
use heco_outside::{Sink, Store};
use heco_peep::Pass;
use heco_sched::Picker;
use std::alloc::Global;

// Gathers all that the command gives, and then writes and prints it.
fn perform<S: Store, O: Sink>(
    alloc: Global,
    command: Command,
    words: &[String],
    store: &mut S,
    out: &mut O,
    picker: &mut Box<dyn Picker>,
    passes: &mut Vec<Box<dyn Pass>>,
) -> Outcome
    ensures cause { IsCause (plan_of command) (S.faults store.old) (S.faults store.new) (O.faults out.old) (O.faults out.new) result }
    ensures untouched { IsUntouched (plan_of command).prints result out.old out.new }
    ensures picker { IsUntouched (asks command) result picker.old picker.new }
    ensures passes { runs_passes command ≡ false → passes.new ≡ passes.old }
    ensures rule { rule picker.new ≡ rule picker.old }
    ensures rules { map (λ b. (handed b).rule) passes.new.items ≡ map (λ b. (handed b).rule) passes.old.items }
    ensures told { IsTrue S.tells → IsTrue O.tells → JobEnds (texts words.now)
        (job_of (agents (picking (rule picker.old) (state picker.old)) (map (λ b. handed b) passes.old.items)) command)
        (agents (picking (rule picker.new) (state picker.new)) (map (λ b. handed b) passes.new.items))
        (outside S.Store O.Sink store.old out.old) (outside S.Store O.Sink store.new out.new) result }
    ensures steady { IsTrue S.tells → S.steady store.old → O.steady out.old
        → HasFiles (texts words.now) (job_of (agents (picking (rule picker.old) (state picker.old)) (map (λ b. handed b) passes.old.items)) command) (S.file store.old)
        → (S.faults store.new ≡ S.faults store.old) × (O.faults out.new ≡ O.faults out.old) × IsNoFault result }
{
    match gather(alloc, command, words, store, picker, passes) {
        Ok(product) => finish(
            alloc,
            words,
            product.writes.as_slice(),
            &product.text,
            store,
            out,
        ),
        Err(outcome) => outcome,
    }
}

// What the words ask for, and what follows of every command.
fn answer<S: Store, O: Sink>(
    alloc: Global,
    words: &[String],
    store: &mut S,
    out: &mut O,
    picker: &mut Box<dyn Picker>,
    passes: &mut Vec<Box<dyn Pass>>,
) -> Outcome
    ensures usage { MatchOption (command_of (texts words.now)) (result ≡ Outcome.Refused Refusal.Usage) (λ _. result ≢ Outcome.Refused Refusal.Usage) }
    ensures cause { HasCause (texts words.now) (S.faults store.old) (S.faults store.new) (O.faults out.old) (O.faults out.new) result }
    ensures untouched { Untouched (texts words.now) result out.old out.new }
    ensures picker { PickerLeft (texts words.now) result picker.old picker.new }
    ensures passes { PassesLeft (texts words.now) passes.old passes.new }
    ensures rule { rule picker.new ≡ rule picker.old }
    ensures rules { map (λ b. (handed b).rule) passes.new.items ≡ map (λ b. (handed b).rule) passes.old.items }
    ensures told { IsTrue S.tells → IsTrue O.tells → Ends (texts words.now)
        (agents (picking (rule picker.old) (state picker.old)) (map (λ b. handed b) passes.old.items))
        (agents (picking (rule picker.new) (state picker.new)) (map (λ b. handed b) passes.new.items))
        (outside S.Store O.Sink store.old out.old) (outside S.Store O.Sink store.new out.new) result }
    ensures quiet { IsTrue S.tells → S.steady store.old → O.steady out.old
        → IsReadyIn (texts words.now) (agents (picking (rule picker.old) (state picker.old)) (map (λ b. handed b) passes.old.items)) (S.file store.old)
        → (S.faults store.new ≡ S.faults store.old) × (O.faults out.new ≡ O.faults out.old) × IsNoFault result }
{
    match command_of(words) {
        Some(command) => perform(alloc, command, words, store, out, picker, passes),
        None => Outcome::Refused(Refusal::Usage),
    }
}

/// Does what the words ask for, and says on `err` why it failed where it did. `words` are those behind the program's name.
/// The picker chooses the order of every run. The passes run, in order, over the circuit that `compile`, `exec`, `pair` and
/// `sample` compile.
pub fn heco<S: Store, O: Sink, E: Sink>(
    alloc: Global,
    words: &[String],
    store: &mut S,
    out: &mut O,
    err: &mut E,
    picker: &mut Box<dyn Picker>,
    passes: &mut Vec<Box<dyn Pass>>,
) -> Outcome
    // Usage exactly where the words ask for no command
    ensures usage { MatchOption (command_of (texts words.now)) (result ≡ Outcome.Refused Refusal.Usage) (λ _. result ≢ Outcome.Refused Refusal.Usage) }

    // a fault names a word that the command reads or writes, or standard output, and comes only where that count rose
    ensures cause { HasCause (texts words.now) (S.faults store.old) (S.faults store.new) (O.faults out.old) (O.faults out.new) result }

    // standard output itself is as it was after a refusal and a read fault, and wherever the command prints nothing
    ensures untouched { Untouched (texts words.now) result out.old out.new }

    // the picker is as it was after a refusal and a read fault, and wherever the command doesn't ask it
    ensures picker { PickerLeft (texts words.now) result picker.old picker.new }

    // the passes are as they were wherever the command runs none
    ensures passes { PassesLeft (texts words.now) passes.old passes.new }

    // what the picker and each pass answer in a state, and where that leads, stays whatever happens
    ensures rule { rule picker.new ≡ rule picker.old }
    ensures rules { map (λ b. (handed b).rule) passes.new.items ≡ map (λ b. (handed b).rule) passes.old.items }

    // how the command's job ended: what was read, judged, written and printed, and how it left the picker and the passes
    ensures told { IsTrue S.tells → IsTrue O.tells → Ends (texts words.now)
        (agents (picking (rule picker.old) (state picker.old)) (map (λ b. handed b) passes.old.items))
        (agents (picking (rule picker.new) (state picker.new)) (map (λ b. handed b) passes.new.items))
        (outside S.Store O.Sink store.old out.old) (outside S.Store O.Sink store.new out.new) result }

    // where `plain` is done, exactly the text of the source's outputs was printed
    ensures plain { IsTrue S.tells → IsTrue O.tells → PrintsPlain (texts words.now) (outside S.Store O.Sink store.old out.old) (outside S.Store O.Sink store.new out.new) result }

    // THE HEADLINE. Where `exec` is done: SRC was an accepted source, IN values of its inputs, KMAT and EMAT material within bounds for it; CIR spells what
    // the passes make of a circuit that compiling gives the source, which is good for the source as that one is, and the passes are left as this leaves them;
    // SEC, EVA, CTS and RES are by the written formulas over CIR, KMAT, EMAT and IN; every other file stands; and standard output grew by exactly what
    // decrypting RES with SEC over CIR prints, which is the text of the source's execution on these values
    ensures headline { IsTrue S.tells → IsTrue O.tells → PrintsExec (texts words.now)
        (map (λ b. handed b) passes.old.items) (map (λ b. handed b) passes.new.items)
        (outside S.Store O.Sink store.old out.old) (outside S.Store O.Sink store.new out.new) result }

    // THE HEADLINE IN TWO ROWS. Where `pair` is done: the same of SRC, KMAT, EMAT, CIR, SEC and EVA; IN and IN2 were each values of its inputs; CTS encrypts
    // those of IN in the first row and those of IN2 in the second, and RES is by the written formulas; every other file stands; and standard output grew by
    // what decrypting RES prints of the first row, which is the text of the source's execution on IN, the line `--`, and the same of the second row and IN2
    ensures pair { IsTrue S.tells → IsTrue O.tells → PrintsPair (texts words.now)
        (map (λ b. handed b) passes.old.items) (map (λ b. handed b) passes.new.items)
        (outside S.Store O.Sink store.old out.old) (outside S.Store O.Sink store.new out.new) result }

    // where `measure` is done: CIR, SEC, EVA and CTS were read as a circuit, both keys and ciphertexts of its inputs, and EVA has every key that it needs; and
    // standard output grew by exactly a line for each wire of the circuit's run: the wire, its noise under SEC, and its written bound
    ensures measure { IsTrue S.tells → IsTrue O.tells → PrintsMeasure (texts words.now) (outside S.Store O.Sink store.old out.old) (outside S.Store O.Sink store.new out.new) result }

    // and where SEC and EVA are the files of `keys` for CIR, and CTS is that of `encrypt`, `exec` or `pair`, by material within bounds, no noise that was
    // printed is above its bound
    ensures within { IsTrue S.tells → IsTrue O.tells → PrintsWithinBounds (texts words.now) (outside S.Store O.Sink store.old out.old) (outside S.Store O.Sink store.new out.new) result }

    // after Ok nothing went to `err`
    ensures silent { IsTrue E.tells → result ≡ Outcome.Ok → E.taken err.new ≡ E.taken err.old }

    // where a command is done, exactly the files that it owes were written, all others stand, exactly the text that it owes was printed, the picker
    // is as the run leaves it, and the passes as their looks do
    ensures done { IsTrue S.tells → IsTrue O.tells → DoneIfOk (texts words.now)
        (agents (picking (rule picker.old) (state picker.old)) (map (λ b. handed b) passes.old.items))
        (agents (picking (rule picker.new) (state picker.new)) (map (λ b. handed b) passes.new.items))
        (outside S.Store O.Sink store.old out.old) (outside S.Store O.Sink store.new out.new) result }

    // the store's calls grew by the first of the planned calls, of which only the last may have failed
    ensures planned { IsTrue S.tells → IsTrue O.tells → FollowsPlan (texts words.now) (outside S.Store O.Sink store.old out.old) (outside S.Store O.Sink store.new out.new) result }

    // what stands after a refusal, a fault and want of memory
    ensures stands { IsTrue S.tells → IsTrue O.tells → Stands (outside S.Store O.Sink store.old out.old) (outside S.Store O.Sink store.new out.new) result }

    // the line of the answer, or where a count of `err` rose a prefix of it
    ensures line { IsTrue E.tells → Reports (E.taken err.old) (E.taken err.new) (line_of (texts words.now) result)
        (E.faults err.old) (E.faults err.new) (E.shortages err.old) (E.shortages err.new) }

    // where no refusal is due and no count of faults rises, it is done unless memory runs out
    ensures complete { IsTrue S.tells → IsTrue O.tells → IsClearIn (texts words.now) (agents (picking (rule picker.old) (state picker.old)) (map (λ b. handed b) passes.old.items)) (S.file store.old)
        → ¬ Rose (S.faults store.old) (S.faults store.new) → ¬ Rose (O.faults out.old) (O.faults out.new) → IsOkOrMemory result }

    // over an undisturbed outside whose files are there, that no count rises is a fact
    ensures steady { IsTrue S.tells → IsTrue O.tells → S.steady store.old → O.steady out.old
        → IsReadyIn (texts words.now) (agents (picking (rule picker.old) (state picker.old)) (map (λ b. handed b) passes.old.items)) (S.file store.old)
        → IsOkOrMemory result × (S.faults store.new ≡ S.faults store.old) × (O.faults out.new ≡ O.faults out.old) }
{
    let outcome = answer(alloc, words, store, out, picker, passes);
    report_outcome(words, &outcome, err);
    outcome
}

/// The answer to words that can't be read: Usage, with its line.
pub fn refuse_words<E: Sink>(err: &mut E) -> Outcome
    ensures usage { result ≡ Outcome.Refused Refusal.Usage }
    ensures line { IsTrue E.tells → Reports (E.taken err.old) (E.taken err.new) (line_of [] result)
        (E.faults err.old) (E.faults err.new) (E.shortages err.old) (E.shortages err.new) }
{
    let outcome = Outcome::Refused(Refusal::Usage);
    report_outcome(&[], &outcome, err);
    outcome
}
