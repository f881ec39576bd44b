use ppp_chat::Script;
use ppp_outside::LineWords;

/// What the words ask for: a script, and the line over which it is run.
#[derive(Drop)]
pub struct Plan {
    pub line: LineWords,
    pub script: Script,
}
