//! The lines of text that answer.
ghost use Rattle.std.specs.Prelude.{◌≡◌, [], ◌++◌, ◌+◌, ◌≤◌, ◌<◌, length, get_or};
ghost use Rattle.session.specs.Decimals.{decimal};
ghost use Rattle.session.specs.Calls.{call_text};
ghost use Rattle.session.specs.Answers.{answer_text, no_call_text, context_text, contexts_text};

use arrayvec::ArrayString;
use itoa::Buffer;
use model::{Answer, Call};
use std::marker::Model;

/// A line of text, built from its start in a fixed buffer. The longest answer has 404 bytes.
#[derive(Debug, Drop)]
pub struct Text(ArrayString<512>);

// Clauses see the bytes of the line.
impl Model for Text {
    ghost use Rattle.std.specs.Prelude.{ℕ, List};

    ghost Value = { List ℕ };

    ghost view = { λ t. t.0.bytes };
}

impl Text {
    /// The line that answers a call so, where the contexts have these counts afterwards.
    #[tactic(auto, unfolding(crate::specs::Answers::answer_text))]
    pub fn of_answer(call: Call, answer: Answer, counts: &[u8]) -> Text
        requires { length counts.now ≤ 48 }
        ensures { result ≡ answer_text call answer.verdict answer.firings answer.forced (length counts.now) (λ c. get_or counts.now c 0) }
    {
        let mut text = Text::of_call(call);
        text.push_number(" ", usize::from(answer.verdict.number()));
        text.push_number(" ", answer.firings);
        text.push_number(" ", answer.forced);
        text.push_contexts(counts);
        text.push_str("\n");
        text
    }

    /// The line that answers a line which is no call.
    pub fn of_no_call() -> Text
        ensures { result ≡ no_call_text }
    {
        let mut text = Text::new();
        text.push_str("?\n");
        text
    }

    pub fn as_bytes(&self) -> &[u8]
        ensures { result.now ≡ self.now }
    {
        self.0.as_str().as_bytes()
    }

    fn new() -> Text
        ensures { result ≡ [] }
    {
        Text(ArrayString::new())
    }

    /// A call's text.
    #[tactic(auto, unfolding(crate::specs::Calls::call_text))]
    fn of_call(call: Call) -> Text
        ensures text { result ≡ call_text call }
        ensures short { length result ≤ 21 }
    {
        let mut text = Text::new();
        match call {
            Call::Activate(c) => text.push_number("+", c),
            Call::Deactivate(c) => text.push_number("-", c),
            Call::Undo => text.push_str("u"),
            Call::Settle => text.push_str("s"),
        }
        text
    }

    /// The active contexts among those with these counts.
    fn push_contexts(&mut self, counts: &[u8])
        requires few { length counts.now ≤ 48 }
        requires room { length self.old ≤ 84 }
        ensures text { self.new ≡ self.old ++ contexts_text (length counts.now) (λ c. get_or counts.now c 0) }
        ensures short { length self.new ≤ length self.old + 336 }
    {
        for (c, count) in counts.iter().enumerate() {
            self.push_context(c, *count);
        }
    }

    /// A context and its count, where it is active.
    #[tactic(auto, using(crate::proofs::Texts::idle_behind, crate::proofs::Texts::active_behind))]
    fn push_context(&mut self, c: usize, count: u8)
        requires small { c < 100 }
        requires room { length self.old ≤ 470 }
        ensures text { self.new ≡ self.old ++ context_text c count }
        ensures short { length self.new ≤ length self.old + 7 }
    {
        if count == 0 {
            return;
        }
        self.push_number(" ", c);
        self.push_number(":", usize::from(count));
    }

    /// A sign and a number.
    fn push_number(&mut self, sign: &str, number: usize)
        requires { length self.old + length sign.now ≤ 492 }
        ensures text { self.new ≡ self.old ++ (sign.now ++ decimal number) }
        ensures short { length self.new ≤ length self.old + length sign.now + 20 }
    {
        self.push_str(sign);
        self.push_str(Buffer::new().format(number));
    }

    fn push_str(&mut self, more: &str)
        requires { length self.old + length more.now ≤ 512 }
        ensures { self.new ≡ self.old ++ more.now }
    {
        self.0.push_str(more);
    }
}
