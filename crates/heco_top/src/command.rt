ghost use Rattle.std.specs.Prelude.{◌≡◌};
ghost use Rattle.std.specs.List.{list_any};
ghost use Rattle.std.specs.Str.{bytes_eq};
ghost use Rattle.heco_jobs.specs.Words.{texts, are_distinct};
ghost use Rattle.heco_top.specs.Commands.{command_of, plain_of, compile_of, show_of, draw_of, keys_of, encrypt_of, run_of, decrypt_of, measure_of, exec_of, pair_of, sample_of};

use crate::seed::seed_of;

/// What the words ask for.
#[derive(Clone, Copy, Debug, PartialEq, Eq)]
pub enum Command {
    Plain,
    Compile,
    Show,
    Draw { seed: u64 },
    Keys,
    Encrypt,
    Run,
    Decrypt,
    Measure,
    Exec,
    Pair,
    Sample { seed: u64 },
}

fn is_among(name: &str, words: &[String]) -> bool
    ensures { result ≡ list_any (bytes_eq name.now) (texts words.now) }
{
    let mut rest = words;
    while let [word, after @ ..] = rest {
        if name == word.as_str() {
            return true;
        }
        rest = after;
    }
    false
}

fn are_distinct(words: &[String]) -> bool
    ensures { result ≡ are_distinct (texts words.now) }
{
    let mut rest = words;
    while let [word, after @ ..] = rest {
        if is_among(word.as_str(), after) {
            return false;
        }
        rest = after;
    }
    true
}

// plain SRC IN
fn plain_of(words: &[String]) -> Option<Command>
    ensures { result ≡ plain_of (texts words.now) }
{
    let [_, _] = words else {
        return None;
    };
    if are_distinct(words) {
        Some(Command::Plain)
    } else {
        None
    }
}

// compile SRC CIR
fn compile_of(words: &[String]) -> Option<Command>
    ensures { result ≡ compile_of (texts words.now) }
{
    let [_, _] = words else {
        return None;
    };
    if are_distinct(words) {
        Some(Command::Compile)
    } else {
        None
    }
}

// show CIR
fn show_of(words: &[String]) -> Option<Command>
    ensures { result ≡ show_of (texts words.now) }
{
    let [_] = words else {
        return None;
    };
    Some(Command::Show)
}

// draw CIR SEED KMAT EMAT
fn draw_of(words: &[String]) -> Option<Command>
    ensures { result ≡ draw_of (texts words.now) }
{
    let [circuit, seed, files @ ..] = words else {
        return None;
    };
    if files.len() != 2 || is_among(circuit.as_str(), files) || !are_distinct(files) {
        return None;
    }
    let seed = seed_of(seed.as_str())?;
    Some(Command::Draw { seed })
}

// keys CIR KMAT SEC EVA
fn keys_of(words: &[String]) -> Option<Command>
    ensures { result ≡ keys_of (texts words.now) }
{
    let [_, _, _, _] = words else {
        return None;
    };
    if are_distinct(words) {
        Some(Command::Keys)
    } else {
        None
    }
}

// encrypt CIR EVA EMAT IN CTS
fn encrypt_of(words: &[String]) -> Option<Command>
    ensures { result ≡ encrypt_of (texts words.now) }
{
    let [_, _, _, _, _] = words else {
        return None;
    };
    if are_distinct(words) {
        Some(Command::Encrypt)
    } else {
        None
    }
}

// run CIR EVA CTS RES
fn run_of(words: &[String]) -> Option<Command>
    ensures { result ≡ run_of (texts words.now) }
{
    let [_, _, _, _] = words else {
        return None;
    };
    if are_distinct(words) {
        Some(Command::Run)
    } else {
        None
    }
}

// decrypt CIR SEC RES
fn decrypt_of(words: &[String]) -> Option<Command>
    ensures { result ≡ decrypt_of (texts words.now) }
{
    let [_, _, _] = words else {
        return None;
    };
    if are_distinct(words) {
        Some(Command::Decrypt)
    } else {
        None
    }
}

// measure CIR SEC EVA CTS
fn measure_of(words: &[String]) -> Option<Command>
    ensures { result ≡ measure_of (texts words.now) }
{
    let [_, _, _, _] = words else {
        return None;
    };
    if are_distinct(words) {
        Some(Command::Measure)
    } else {
        None
    }
}

// exec SRC IN KMAT EMAT CIR SEC EVA CTS RES
fn exec_of(words: &[String]) -> Option<Command>
    ensures { result ≡ exec_of (texts words.now) }
{
    let [_, _, _, _, _, _, _, _, _] = words else {
        return None;
    };
    if are_distinct(words) {
        Some(Command::Exec)
    } else {
        None
    }
}

// pair SRC IN IN2 KMAT EMAT CIR SEC EVA CTS RES
fn pair_of(words: &[String]) -> Option<Command>
    ensures { result ≡ pair_of (texts words.now) }
{
    let [_, _, _, _, _, _, _, _, _, _] = words else {
        return None;
    };
    if are_distinct(words) {
        Some(Command::Pair)
    } else {
        None
    }
}

// sample SEED
fn sample_of(words: &[String]) -> Option<Command>
    ensures { result ≡ sample_of (texts words.now) }
{
    let [seed] = words else {
        return None;
    };
    let seed = seed_of(seed.as_str())?;
    Some(Command::Sample { seed })
}

/// The command of the words. The file words of a command differ.
pub fn command_of(words: &[String]) -> Option<Command>
    ensures { result ≡ command_of (texts words.now) }
{
    let [command, rest @ ..] = words else {
        return None;
    };
    let command = command.as_str();
    if command == "plain" {
        return plain_of(rest);
    }
    if command == "compile" {
        return compile_of(rest);
    }
    if command == "show" {
        return show_of(rest);
    }
    if command == "draw" {
        return draw_of(rest);
    }
    if command == "keys" {
        return keys_of(rest);
    }
    if command == "encrypt" {
        return encrypt_of(rest);
    }
    if command == "run" {
        return run_of(rest);
    }
    if command == "decrypt" {
        return decrypt_of(rest);
    }
    if command == "measure" {
        return measure_of(rest);
    }
    if command == "exec" {
        return exec_of(rest);
    }
    if command == "pair" {
        return pair_of(rest);
    }
    if command == "sample" {
        return sample_of(rest);
    }
    None
}
