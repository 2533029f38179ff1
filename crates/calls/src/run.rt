// A list is run, and its answers shown.
use crate::call::Call;
use batch::answer::ANSWER_WORDS;
use batch::numbers::CALL_WORDS;
use batch::word::signed;
use host::host_run;
use std::cmp::min;
use std::io;

// The longest list.
const MOST_CALLS: usize = 16;

const LIST_WORDS: usize = MOST_CALLS * CALL_WORDS;

pub const ANSWERS: usize = MOST_CALLS * ANSWER_WORDS;

// What the answers' slice holds beforehand; no answer here has this number.
const UNTOUCHED: u32 = 77;

// What an answer's words behind its code are told after, where they are not 0.
const PARTS: [&str; 10] = [
    ", word ",
    ", releases ",
    " with ",
    ", waiter ",
    ", receiver ",
    ", count ",
    ", normal1 ",
    ", normal2 ",
    ", management ",
    ", reference ",
];

// A list of calls under its heading; so many words of 0 behind its last call, and so many words of a slice for its answers.
#[derive(Clone, Copy)]
pub struct Run(pub &'static str, pub &'static [Call], pub usize, pub usize);

// A call's line: what it asks, its answer's code, and what else is not 0.
fn show_answer(rt: &impl Print, call: &[u32], answer: &[u32]) -> io::Result<()> {
    let [function, caller, object, ..] = call else {
        return Ok(());
    };
    let [code, parts @ ..] = answer else {
        return Ok(());
    };
    print!(rt;
        "function {function} by {} on {}: code {}",
        signed(*caller),
        signed(*object),
        signed(*code)
    )?;
    for (name, word) in PARTS.iter().zip(parts) {
        if *word != 0 {
            print!(rt; "{name}{word}")?;
        }
    }
    rt.println("")
}

impl Run {
    // The words of the calls, zeros behind them, and how many of them a run takes.
    fn words(self) -> ([u32; LIST_WORDS], usize) {
        let Run(_, calls, tail, _) = self;
        let mut words = [0; LIST_WORDS];
        let mut count: usize = 0;
        for call in calls {
            for word in call.words() {
                if count < LIST_WORDS {
                    words[count] = word;
                    count += 1;
                }
            }
        }
        (words, count.saturating_add(tail))
    }

    // The answers get the first words of a slice.
    pub fn show(self, rt: &impl Print) -> io::Result<()> {
        let Run(heading, _, _, room) = self;
        rt.println(heading)?;
        let (words, count) = self.words();
        let words = &words[..min(count, LIST_WORDS)];
        let mut answers = [UNTOUCHED; ANSWERS];
        let answered = host_run(words, &mut answers[..min(room, ANSWERS)]);
        let made = words
            .chunks(CALL_WORDS)
            .zip(answers.chunks_exact(ANSWER_WORDS));
        for (call, answer) in made.take(answered) {
            show_answer(rt, call, answer)?;
        }
        let untouched = answers.iter().filter(|word| **word == UNTOUCHED).count();
        println!(rt; "words left as they were: {untouched}")
    }
}
