ghost use Rattle.std.specs.Prelude.{◌≡◌, false, IfErr, map};
ghost use Rattle.heco_jobs.specs.Agents.{agents, picking};
ghost use Rattle.heco_jobs.specs.Laws.{IsLeft};
ghost use Rattle.heco_jobs.specs.Stages.{IsGathered};
ghost use Rattle.heco_jobs.specs.Words.{texts};
ghost use Rattle.heco_top.specs.Commands.{plan_of, job_of, asks, runs_passes};

use crate::command::Command;
use crate::compile::gather_compile;
use crate::exec::gather_exec;
use crate::pair::gather_pair;
use crate::run::gather_run;
use crate::sample::gather_sample;
use heco_jobs::{Outcome, Product};
use heco_outside::Store;
use heco_peep::Pass;
use heco_sched::Picker;
use heco_tasks::{
    gather_decrypt, gather_draw, gather_encrypt, gather_keys, gather_measure, gather_plain,
    gather_show,
};
use std::alloc::Global;

/// All that the command gives, or why it ends before. A later command adds its arm.
pub fn gather<S: Store>(
    alloc: Global,
    command: Command,
    words: &[String],
    store: &mut S,
    picker: &mut Box<dyn Picker>,
    passes: &mut Vec<Box<dyn Pass>>,
) -> Result<Product, Outcome>
    ensures gathered { IsGathered S.Store (texts words.now) (plan_of command)
        (job_of (agents (picking (rule picker.old) (state picker.old)) (map (λ b. handed b) passes.old.items)) command)
        (agents (picking (rule picker.new) (state picker.new)) (map (λ b. handed b) passes.new.items)) store.old store.new result }
    ensures rule { rule picker.new ≡ rule picker.old }
    ensures rules { map (λ b. (handed b).rule) passes.new.items ≡ map (λ b. (handed b).rule) passes.old.items }
    ensures left { IfErr result (λ outcome. IsLeft outcome picker.old picker.new) }
    ensures unasked { asks command ≡ false → picker.new ≡ picker.old }
    ensures passes { runs_passes command ≡ false → passes.new ≡ passes.old }
{
    match command {
        Command::Plain => gather_plain(alloc, words, store),
        Command::Compile => gather_compile(alloc, words, store, passes),
        Command::Show => gather_show(alloc, words, store),
        Command::Draw { seed } => gather_draw(alloc, seed, words, store),
        Command::Keys => gather_keys(alloc, words, store),
        Command::Encrypt => gather_encrypt(alloc, words, store),
        Command::Run => gather_run(alloc, words, store, picker),
        Command::Decrypt => gather_decrypt(alloc, words, store),
        Command::Measure => gather_measure(alloc, words, store),
        Command::Exec => gather_exec(alloc, words, store, picker, passes),
        Command::Pair => gather_pair(alloc, words, store, picker, passes),
        Command::Sample { seed } => { gather_sample(alloc, seed, words, store, picker, passes) }
    }
}
