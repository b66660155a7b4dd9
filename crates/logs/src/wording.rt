// What is printed of headings, calls and replies, in words.
ghost use Rattle.std.specs.Prelude.{Some};
ghost use Rattle.logs.specs.Headings.{keys_text};
ghost use Rattle.logs.specs.Wordings.{asked_text, reply_text};

use crate::heading::KeyKind;
use crate::written::{Written, WrittenKey};
use frame::plan::Plan;
use meter::day::{Call, Reply};
use std::fmt;

impl fmt::Display for KeyKind {
    ghost output = { λ k. Some (keys_text k) };

    fn fmt<W: fmt::Write>(&self, f: &mut fmt::Formatter<W>) -> fmt::Result {
        f.write_str(match self {
            KeyKind::Prefix => "prefix",
            KeyKind::Account => "account",
        })
    }
}

// A call to be printed.
#[derive(Drop)]
pub struct Asked<'a, K>(pub &'a Call<K>);

impl<'a, K: WrittenKey> fmt::Display for Asked<'a, K> {
    ghost output = { λ a. Some (asked_text (λ k. K.text (K.coded k)) a.0.now) };

    fn fmt<W: fmt::Write>(&self, f: &mut fmt::Formatter<W>) -> fmt::Result {
        match self.0 {
            Call::Plan(plan) => {
                let Plan {
                    places,
                    step,
                    most,
                    window,
                    blocks,
                } = plan;
                write!(
                    f,
                    "Plan of places {places}, step {step}, greatest weight {most}, window {window}, blocks {blocks}"
                )
            }
            Call::Packet(key, weight) => {
                let key = Written(key);
                write!(f, "Packet {key}, weight {weight}")
            }
            Call::Estimate(key) => {
                let key = Written(key);
                write!(f, "Estimate of {key}")
            }
            Call::List(level, _) => write!(f, "List at level {level}"),
            Call::Restart => write!(f, "Restart"),
        }
    }
}

// A reply to be printed. The flows of a list stand in rows of their own.
#[derive(Drop)]
pub struct Replied<'a>(pub &'a Reply);

impl<'a> fmt::Display for Replied<'a> {
    ghost output = { λ r. Some (reply_text r.0.now) };

    fn fmt<W: fmt::Write>(&self, f: &mut fmt::Formatter<W>) -> fmt::Result {
        match self.0 {
            Reply::Planned => write!(f, "accepted"),
            Reply::Took(passes) => write!(f, "passes {passes}"),
            Reply::Estimated(estimate) => write!(f, "{estimate}"),
            Reply::Listed(records) => {
                let count = records.len();
                write!(f, "flows {count}")
            }
            Reply::Restarted => write!(f, "done"),
        }
    }
}
