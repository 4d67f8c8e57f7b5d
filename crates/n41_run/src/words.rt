ghost use Rattle.std.specs.Prelude.{◌≡◌, ◌<◌, ◌++◌, [], ◌∷◌, ◌↔◌, ℕ, codes, List, length, get_or, map, string_bytes, IsTrue, IsOk, IfOk, IfErr, IfSome, IfNone};
ghost use Rattle.n41_run.specs.Words.{IsPort, IsAddress, IsVerb, IsOperand, IsForm, IsFirstBad, verb_text, side_text};
ghost use Rattle.n41_lines.specs.declared.side.Side.{Side as SideValue};
ghost use Rattle.n41_run.specs.Asked.{Asks, Takes};

use n41_lines::Side;

/// What the words ask for.
#[derive(Debug, Drop)]
pub enum Command<'a> {
    /// One exchange with the server at this address.
    Probe(&'a str),
    /// The script on the input, run against the server at this address; the answers are printed.
    Run(&'a str),
    /// The same, but the journal is printed.
    Trace(&'a str),
    /// A line for each record of the input, which this side of a connection wrote.
    Dump(Side),
    /// The journal on the input, checked by itself.
    Replay,
}

/// The first words.
#[derive(Clone, Copy, PartialEq, Eq)]
pub(crate) enum Verb {
    Probe,
    Run,
    Trace,
    Dump,
    Replay,
}

fn verb_of(word: &str) -> Option<Verb>
    ensures some { IfSome result (λ verb. word.now ≡ verb_text verb) }
    ensures none { IfNone result (IsVerb word.now → ⊥) }
{
    match word {
        "probe" => Some(Verb::Probe),
        "run" => Some(Verb::Run),
        "trace" => Some(Verb::Trace),
        "dump" => Some(Verb::Dump),
        "replay" => Some(Verb::Replay),
        _ => None,
    }
}

fn side_of(word: &str) -> Option<Side>
    ensures some { IfSome result (λ side. word.now ≡ side_text side) }
    ensures none { IfNone result ((side : SideValue) → word.now ≡ side_text side → ⊥) }
{
    match word {
        "client" => Some(Side::Client),
        "server" => Some(Side::Server),
        _ => None,
    }
}

/// Whether the text is the decimal numeral of a port, without leading zeros.
fn is_port(text: &str) -> bool
    ensures { IsTrue result ↔ IsPort text.now }
{
    if text.starts_with('0') || text.starts_with('+') {
        return false;
    }
    text.parse::<u16>().is_ok()
}

/// What stands before the last colon, and what stands after it.
fn around_last_colon(text: &str) -> Option<(&str, &str)>
    ensures parts { IfSome result (λ x. text.now ≡ x.0.now ++ (58 ∷ x.1.now)) }
    ensures last { IfSome result (λ x. (i : ℕ) → i < length x.1.now → get_or x.1.now i 0 ≡ 58 → ⊥) }
    ensures none { IfNone result ((i : ℕ) → i < length text.now → get_or text.now i 0 ≡ 58 → ⊥) }
{
    text.rsplit_once(':')
}

fn is_address(text: &str) -> bool
    ensures { IsTrue result ↔ IsAddress text.now }
{
    match around_last_colon(text) {
        Some((host, port)) => !host.is_empty() && is_port(port),
        None => false,
    }
}

/// What a first word and the word behind it ask for. None exactly where that does not fit.
fn command_with(verb: Verb, word: &str) -> Option<Command<'_>>
    ensures some { IfSome result (λ command. Takes verb (word.now ∷ []) command) }
    ensures none { IfNone result (IsOperand verb word.now → ⊥) }
{
    match verb {
        Verb::Probe if is_address(word) => Some(Command::Probe(word)),
        Verb::Run if is_address(word) => Some(Command::Run(word)),
        Verb::Trace if is_address(word) => Some(Command::Trace(word)),
        Verb::Dump => match side_of(word) {
            Some(side) => Some(Command::Dump(side)),
            None => None,
        },
        _ => None,
    }
}

/// What a first word alone asks for. None exactly where a word has to stand behind it.
fn command_alone<'a>(verb: Verb) -> Option<Command<'a>>
    ensures some { IfSome result (λ command. Takes verb [] command) }
    ensures none { IfNone result (verb ≡ Verb.Replay → ⊥) }
{
    match verb {
        Verb::Replay => Some(Command::Replay),
        _ => None,
    }
}

/// What the words ask for, or the place, from 1, of the first word that fits no form.
pub fn command_of(words: &[String]) -> Result<Command<'_>, usize>
    ensures exact { IsOk result ↔ IsForm (map string_bytes words.now) }
    ensures asks { IfOk result (λ command. Asks (map string_bytes words.now) command) }
    ensures bad { IfErr result (λ place. IsFirstBad (map string_bytes words.now) place) }
{
    let Some((first, others)) = words.split_first() else {
        return Err(1);
    };
    let Some(verb) = verb_of(first.as_str()) else {
        return Err(1);
    };
    let Some((second, more)) = others.split_first() else {
        return command_alone(verb).ok_or(2);
    };
    let Some(command) = command_with(verb, second.as_str()) else {
        return Err(2);
    };
    if !more.is_empty() {
        return Err(3);
    }
    Ok(command)
}
