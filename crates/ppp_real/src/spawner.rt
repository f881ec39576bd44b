ghost use Rattle.std.specs.Prelude.{◌≡◌, ◌++◌, IfOk, None, OnOk, slice_get, false};
ghost use Rattle.std.specs.Process.{command_args, command_program, exit_code};
ghost use Rattle.ppp_outside.specs.HookWords.{texts_of};
ghost use Rattle.ppp_outside.specs.Spawner.{failed};
ghost use Rattle.ppp_real.specs.Spawner.{IsEndOf, listed, path_of};

use crate::texts::text_of;
use ppp_base::Name;
use ppp_outside::{HookPaths, HookScript, HookWords, ScriptEnd, Spawner, words_of};
use std::alloc::Global;
use std::io::Result;
use std::process::{Command, ExitStatus, Processes, Stdio};

/// What runs the site scripts of this machine.
#[derive(Drop)]
pub struct RealSpawner<R> {
    rt: R,
    alloc: Global,
    paths: HookPaths,
    tries: u64,
    faults: u64,
}

impl<R> RealSpawner<R> {
    /// A spawner of the scripts with these paths, which has run none.
    pub fn new(rt: R, alloc: Global, paths: &HookPaths) -> RealSpawner<R>
        ensures counts { (result.tries ≡ 0) × (result.faults ≡ 0) }
        ensures paths { result.paths ≡ paths.now }
    {
        RealSpawner {
            rt,
            alloc,
            paths: paths.copy(),
            tries: 0,
            faults: 0,
        }
    }
}

// Where a script lies.
fn path_for(paths: &HookPaths, script: HookScript) -> &Name
    ensures { result.now ≡ path_of paths.now script }
{
    match script {
        HookScript::IpUp => &paths.ip_up,
        HookScript::IpDown => &paths.ip_down,
        HookScript::AuthUp => &paths.auth_up,
        HookScript::AuthDown => &paths.auth_down,
    }
}

// Adds the script's argument number `at`, where it has so many.
fn add_argument(command: &mut Command, words: &HookWords, at: u8) -> Result<()>
    ensures program { OnOk result (command_program command.new ≡ command_program command.old) }
    ensures argument { OnOk result (command_args command.new ≡ command_args command.old ++ listed (slice_get (texts_of words.now) at)) }
{
    if let Some(text) = words_of(words, at) {
        command.arg(text_of(text.as_slice())?)?;
    }
    Ok(())
}

// The script as a program with its arguments, of which no script has more than six.
#[tactic(auto, using(crate::proofs::SpawnerLemmas::all_listed))]
fn command_for(alloc: Global, paths: &HookPaths, words: &HookWords) -> Result<Command>
    ensures program { IfOk result (λ command. command_program command ≡ path_of paths.now words.now.script) }
    ensures arguments { IfOk result (λ command. command_args command ≡ texts_of words.now) }
{
    let mut command = Command::new(alloc, text_of(path_for(paths, words.script).as_slice())?)?;
    add_argument(&mut command, words, 0)?;
    add_argument(&mut command, words, 1)?;
    add_argument(&mut command, words, 2)?;
    add_argument(&mut command, words, 3)?;
    add_argument(&mut command, words, 4)?;
    add_argument(&mut command, words, 5)?;
    Ok(command)
}

// How a program ended.
fn end_of(status: ExitStatus) -> ScriptEnd
    ensures end { IsEndOf (exit_code status) result }
    ensures ended { failed result ≡ false }
{
    match status.code() {
        Some(code) => ScriptEnd::Exit(code as u8),
        None => ScriptEnd::Killed,
    }
}

// Runs the script to its end, with nothing on its standard input.
fn run_script<R: Processes>(
    rt: &R,
    alloc: Global,
    paths: &HookPaths,
    words: &HookWords,
) -> Result<ScriptEnd>
    ensures { IfOk result (λ end. failed end ≡ false) }
{
    let mut command = command_for(alloc, paths, words)?;
    let status = command.stdin(Stdio::null()).status(rt)?;
    Ok(end_of(status))
}

impl<R: Processes + Drop> Spawner for RealSpawner<R> {
    ghost faults = { λ s. s.faults };

    ghost tries = { λ s. s.tries };

    ghost runs = { λ s. None };

    ghost answers = { λ s. None };

    // A script whose end can't be waited for counts as one that wasn't started.
    fn run(&mut self, words: &HookWords) -> ScriptEnd {
        self.tries = self.tries.saturating_add(1);
        match run_script(&self.rt, self.alloc, &self.paths, words) {
            Ok(end) => end,
            Err(_) => {
                self.faults = self.faults.saturating_add(1);
                ScriptEnd::NotStarted
            }
        }
    }
}
