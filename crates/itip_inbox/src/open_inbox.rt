//! The inbox that hears inputs.
ghost use Rattle.std.specs.Prelude.{◌≡◌, ◌≢◌, ◌++◌, ◌+◌, ◌<◌, ℕ, List, [], ◌∷◌, length, map, Option, IfOk, IfErr, OnOk, OnErr};
ghost use Rattle.std.specs.Option.{option_copied};
ghost use Rattle.itip_lines.specs.Reading.{text_limit};
ghost use Rattle.itip_message.specs.Scanned.{messages_of};
ghost use Rattle.itip_state.specs.Kept.{AreKept};
ghost use Rattle.itip_inbox.specs.Inbox.{Placed, placed_from, is_some_refused};
ghost use Rattle.itip_inbox.specs.Streaming.{HasGot, KeepsMessages, Tells};

use crate::counts::count_more;
use crate::inbox::Inbox;
use crate::read_pieces::read_share;
use crate::refusals::Refusals;
use crate::refused::RefusedMessage;
use crate::shards::Shards;
use crate::shown::TOO_LONG;
use crate::source_pieces::worth;
use crate::texts::{Heard, read_texts};
use crate::waiting::{Waiting, read_waiting};
use itip_explain::ToldItem;
use itip_message::MessageRefusal;
use itip_streams::StreamFault;
use itip_todo::Uid;
use std::alloc::{AllocError, Global};
use std::thread::Threads;

/// What is kept of the messages of some inputs, which of them were refused, and what they tell of one to-do. More may come.
#[derive(Drop)]
pub(crate) struct OpenInbox {
    /// What is kept of the messages that were heard.
    pub(crate) state: Shards,
    /// The refused messages, in the order of the inputs and of their messages.
    pub(crate) refusals: Refusals,
    /// The items of the followed UID, in the order of the inputs, of their messages and of `read_message`, each as often as a
    /// message tells it; none if no UID is followed.
    pub(crate) told: Vec<ToldItem>,
    /// The place of the input being heard, from 0: the number of inputs that were read to their ends.
    pub(crate) source: usize,
    /// How many messages of this input were heard or refused so far.
    pub(crate) messages: u64,
    /// The last inputs that were read to their ends, of which nothing has been heard yet.
    pub(crate) waiting: Vec<Waiting>,
    /// How many bytes these have, and how many messages were heard or refused; each is its type's maximum if there are more.
    pub(crate) octets: usize,
    pub(crate) heard: u64,
}

impl OpenInbox {
    /// An inbox of no messages, before the first input, that hears on at most `threads` threads, or on one if that is 0.
    pub(crate) fn empty(alloc: Global, threads: usize) -> Result<OpenInbox, AllocError>
        ensures none { IfOk result (λ inbox. (about : Option (List ℕ)) → HasGot about [] inbox) }
        ensures source { IfOk result (λ inbox. inbox.source ≡ 0) }
        ensures messages { IfOk result (λ inbox. inbox.messages ≡ 0) }
    {
        Ok(OpenInbox {
            state: Shards::empty(alloc, threads)?,
            refusals: Refusals::none(alloc),
            told: Vec::new(alloc),
            source: 0,
            messages: 0,
            waiting: Vec::new(alloc),
            octets: 0,
            heard: 0,
        })
    }

    /// Whether a message was refused.
    pub(crate) fn has_refusals(&self) -> bool
        ensures { result ≡ is_some_refused self.now.refusals }
    {
        !self.refusals.is_empty()
    }

    /// Drops all that it has, each shard of what is kept on a thread of its own.
    pub(crate) fn let_go<R: Threads + Sync>(self, rt: &R) {
        let OpenInbox { state, .. } = self;
        state.let_go(rt);
    }

    /// Returns all that it has, once no more messages come and none wait.
    pub(crate) fn close(self) -> Result<Inbox, AllocError>
        ensures state { IfOk result (λ inbox. AreKept inbox.state self.state) }
        ensures refusals { IfOk result (λ inbox. inbox.refusals ≡ self.refusals) }
        ensures told { IfOk result (λ inbox. inbox.told.items ≡ self.told.items) }
        ensures source { IfOk result (λ inbox. inbox.source ≡ self.source) }
    {
        let OpenInbox {
            state,
            refusals,
            told,
            source,
            ..
        } = self;
        match state.whole() {
            Ok(state) => Ok(Inbox {
                state,
                refusals,
                told,
                source,
            }),
            Err(refused) => {
                // By calls: for a drop in place the proof starts anew, field by field and case by case.
                drop(refusals);
                drop(told);
                Err(refused)
            }
        }
    }

    /// Goes on to the next input, whose messages are numbered from 1. On an error nothing has changed.
    pub(crate) fn next_source(&mut self) -> Result<(), StreamFault>
        ensures source { OnOk result (self.new.source ≡ self.old.source + 1) }
        ensures messages { OnOk result (self.new.messages ≡ 0) }
        ensures state { OnOk result (self.new.state ≡ self.old.state) }
        ensures refusals { OnOk result (self.new.refusals ≡ self.old.refusals) }
        ensures told { OnOk result (self.new.told.items ≡ self.old.told.items) }
        ensures waiting { OnOk result (self.new.waiting.items ≡ self.old.waiting.items) }
        ensures unchanged { OnErr result (self.new ≡ self.old) }
        ensures fault { IfErr result (λ fault. fault ≡ StreamFault.Read) }
    {
        match self.source.checked_add(1) {
            Some(next) => {
                self.source = next;
                self.messages = 0;
                Ok(())
            }
            None => Err(StreamFault::Read),
        }
    }

    /// Lets an input wait to be heard with others. These are all of its bytes, and none of them has been heard.
    pub(crate) fn wait(&mut self, octets: Vec<u8>) -> Result<(), AllocError>
        ensures keeps { OnOk result ((about : Option (List ℕ)) (before : List Placed) → HasGot about before self.old →
            HasGot about (before ++ placed_from self.old.source 1 (messages_of octets.items)) self.new) }
        ensures source { OnOk result (self.new.source ≡ self.old.source) }
        ensures messages { OnOk result (self.new.messages ≡ self.old.messages) }
    {
        self.octets = self.octets.saturating_add(octets.len());
        self.waiting.push(Waiting {
            source: self.source,
            octets,
        })?;
        Ok(())
    }

    /// Hears the inputs that wait, on at most `threads` threads, and follows the items of the UID `about`, if there is one. On an error
    /// a part of their messages may have been heard.
    pub(crate) fn hear_waiting<R: Threads + Sync>(
        &mut self,
        rt: &R,
        alloc: Global,
        about: Option<&Uid>,
        threads: usize,
    ) -> Result<(), StreamFault>
        ensures keeps { OnOk result ((messages : List Placed) → HasGot (option_copied about.entry) messages self.old →
            KeepsMessages (option_copied about.entry) messages self.new) }
        ensures none { OnOk result (self.new.waiting.items ≡ []) }
        ensures source { OnOk result (self.new.source ≡ self.old.source) }
        ensures messages { OnOk result (self.new.messages ≡ self.old.messages) }
        ensures fault { IfErr result (λ fault. fault ≢ StreamFault.Write) }
    {
        let waiting = self.waiting.as_slice();
        let octets = self.octets;
        let threads = worth(octets, threads);
        let heard = read_waiting(rt, alloc, &self.state, about, waiting, octets, threads)?;
        self.take(rt, heard)?;
        self.waiting.clear();
        self.octets = 0;
        Ok(())
    }

    /// Hears all messages of `octets`, the next bytes of the input, on at most `threads` threads, and follows the items of the UID
    /// `about`, if there is one. On an error a part of them, or of those of inputs that waited, may have been heard.
    pub(crate) fn hear<R: Threads + Sync>(
        &mut self,
        rt: &R,
        alloc: Global,
        octets: &[u8],
        about: Option<&Uid>,
        threads: usize,
    ) -> Result<(), StreamFault>
        ensures keeps { OnOk result ((before : List Placed) → HasGot (option_copied about.entry) before self.old →
            HasGot (option_copied about.entry)
            (before ++ placed_from self.old.source (self.old.messages + 1) (messages_of octets.now)) self.new) }
        ensures count { OnOk result (self.new.messages ≡ self.old.messages + length (messages_of octets.now)) }
        ensures source { OnOk result (self.new.source ≡ self.old.source) }
        ensures fault { IfErr result (λ fault. fault ≢ StreamFault.Write) }
    {
        self.hear_waiting(rt, alloc, about, threads)?;
        let heard = read_share(rt, alloc, &self.state, about, self.source, octets, threads)?;
        self.take_next(rt, alloc, heard)?;
        Ok(())
    }

    /// Hears the next messages of the input as [`OpenInbox::hear`] does, but reads them on one thread.
    pub(crate) fn hear_each<R: Threads + Sync>(
        &mut self,
        rt: &R,
        alloc: Global,
        texts: &[&[u8]],
        about: Option<&Uid>,
        threads: usize,
    ) -> Result<(), StreamFault>
        ensures keeps { OnOk result ((before : List Placed) → HasGot (option_copied about.entry) before self.old →
            HasGot (option_copied about.entry)
            (before ++ placed_from self.old.source (self.old.messages + 1) (map (λ text. text.now) texts.now)) self.new) }
        ensures count { OnOk result (self.new.messages ≡ self.old.messages + length texts.now) }
        ensures source { OnOk result (self.new.source ≡ self.old.source) }
        ensures fault { IfErr result (λ fault. fault ≢ StreamFault.Write) }
    {
        self.hear_waiting(rt, alloc, about, threads)?;
        let heard = read_texts(alloc, &self.state, about, self.source, texts)?;
        self.take_next(rt, alloc, heard)?;
        Ok(())
    }

    /// Notes that the next message of the input is refused, as it has more bytes than a message may have. On an error a part of the
    /// messages of inputs that waited may have been heard, and this one may have been counted.
    pub(crate) fn refuse_long<R: Threads + Sync>(
        &mut self,
        rt: &R,
        alloc: Global,
        about: Option<&Uid>,
        threads: usize,
    ) -> Result<(), StreamFault>
        ensures keeps { OnOk result ((before : List Placed) (text : List ℕ) → text_limit < length text →
            HasGot (option_copied about.entry) before self.old → HasGot (option_copied about.entry)
            (before ++ placed_from self.old.source (self.old.messages + 1) (text ∷ [])) self.new) }
        ensures count { OnOk result (self.new.messages ≡ self.old.messages + 1) }
        ensures source { OnOk result (self.new.source ≡ self.old.source) }
        ensures fault { IfErr result (λ fault. fault ≢ StreamFault.Write) }
    {
        self.hear_waiting(rt, alloc, about, threads)?;
        let message = count_more(self.messages, 1)?;
        self.messages = message;
        self.heard = self.heard.saturating_add(1);
        self.refusals.push(RefusedMessage {
            source: self.source,
            message,
            refusal: MessageRefusal::from(TOO_LONG),
        })?;
        Ok(())
    }

    /// Hears and notes what the next messages of the input tell, numbered from 1. On an error a part of it may have been heard or noted.
    fn take_next<R: Threads + Sync>(
        &mut self,
        rt: &R,
        alloc: Global,
        heard: Heard,
    ) -> Result<(), StreamFault>
        ensures keeps { OnOk result ((about : Option (List ℕ)) (before : List Placed) (texts : List (List ℕ)) →
            KeepsMessages about before self.old → Tells about self.old.state (placed_from self.old.source 1 texts) heard →
            KeepsMessages about (before ++ placed_from self.old.source (self.old.messages + 1) texts) self.new) }
        ensures count { OnOk result (self.new.messages ≡ self.old.messages + heard.count) }
        ensures source { OnOk result (self.new.source ≡ self.old.source) }
        ensures waiting { OnOk result (self.new.waiting.items ≡ self.old.waiting.items) }
        ensures fault { IfErr result (λ fault. fault ≢ StreamFault.Write) }
    {
        let mut heard = heard;
        let messages = count_more(self.messages, heard.count)?;
        heard.move_behind(alloc, self.messages)?;
        self.take(rt, heard)?;
        self.messages = messages;
        Ok(())
    }

    /// Hears and notes what messages tell beside what is kept. If an allocation fails, a part of it may have been heard or noted.
    fn take<R: Threads + Sync>(&mut self, rt: &R, heard: Heard) -> Result<(), AllocError>
        ensures keeps { OnOk result ((about : Option (List ℕ)) (before more : List Placed) → KeepsMessages about before self.old →
            Tells about self.old.state more heard → KeepsMessages about (before ++ more) self.new) }
        ensures source { OnOk result (self.new.source ≡ self.old.source) }
        ensures messages { OnOk result (self.new.messages ≡ self.old.messages) }
        ensures waiting { OnOk result (self.new.waiting.items ≡ self.old.waiting.items) }
    {
        let Heard {
            count,
            news,
            refusals,
            mut told,
        } = heard;
        self.heard = self.heard.saturating_add(count);
        self.state.hear(rt, news.as_slice())?;
        self.state.let_go_of(rt, news);
        self.refusals.append(refusals)?;
        self.told.append(&mut told)?;
        Ok(())
    }
}
