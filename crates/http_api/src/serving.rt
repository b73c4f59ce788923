//! The turns of a session: message by message, its calls are made and answered.

ghost use Rattle.std.specs.Prelude.{◌≡◌, ℕ, ◌<◌, ◌||◌, List, [], ◌++◌, bytes_eq, codes, if◌then◌else◌, Option, Some, None, IfOk, OnOk};
ghost use Rattle.desk_types.specs.Journal.{IsLegal};
ghost use Rattle.desk_types.specs.Serving.{ServiceView};
ghost use Rattle.http_api.specs.Message.{IsMessage, Faulty, Whole, is_bodiless};
ghost use Rattle.http_api.specs.HeadValue.{HeadValue};
ghost use Rattle.http_api.specs.SessionRun.{SessionState, session_at};
ghost use Rattle.http_api.specs.SessionTurn.{GoesBehind, GoesOn, IsAnswered, IsDone, TurnGoes, calling_at};
ghost use Rattle.http_api.specs.declared.limits.TheConstants.{MESSAGES_MAX as most};

use crate::answer::{Answer, AnswerForm};
use crate::answer_text::Answers;
use crate::close::asks_to_close;
use crate::ending::{Session, SessionEnd};
use crate::head::Head;
use crate::judgement::Judgement;
use crate::limits::MESSAGES_MAX;
use crate::next_message::NextMessage;
use crate::reader::MessageReader;
use crate::route::Routes;
use crate::verdict::{Verdict, judge};
use desk_io::{Clock, Link, NoMemory, WriteFault};
use desk_types::{Fault, Service};
use query_words::Text;
use std::alloc::Global;

/// What is kept from message to message of a session.
#[derive(Drop)]
pub struct MessageServing {
    pub alloc: Global,
    pub reader: MessageReader,
    pub routes: Routes,
    pub answers: Answers,
}

/// What a turn did.
#[derive(Clone, Copy, Debug)]
pub enum Turn {
    /// A message was answered, which may have ended the session.
    Answered(Option<SessionEnd>),
    /// No message came, and the session ends so.
    Unanswered(SessionEnd),
}

impl MessageServing {
    /// Before the first message. All buffers are taken here.
    pub fn new(alloc: Global) -> Result<MessageServing, NoMemory>
        ensures held { IfOk result (λ serving. serving.reader.held ≡ []) }
        ensures waiting { IfOk result (λ serving. serving.answers ≡ []) }
    {
        Ok(MessageServing {
            alloc,
            reader: MessageReader::new(alloc)?,
            routes: Routes::new(alloc)?,
            answers: Answers::new(alloc)?,
        })
    }

    /// Serves the messages of a link up to the end of the session.
    pub fn serve_messages<V: Service, L: Link, C: Clock>(
        &mut self,
        service: &mut V,
        link: &mut L,
        clock: &mut C,
        host_key: &Text,
    ) -> Session
        requires held { self.old.reader.held ≡ [] }
        requires waiting { self.old.answers ≡ [] }
        requires legal { IsLegal (V.service service.old).opening.settings (V.service service.old).seen }
        ensures home { V.home service.new ≡ V.home service.old }
        ensures done { IsDone host_key.now
            (session_at (V.service service.old) (L.source link.old) (L.sink link.old) (C.moments clock.old))
            (session_at (V.service service.new) (L.source link.new) (L.sink link.new) (C.moments clock.new)) result }
        ensures lenders { (L.source link.new).lenders ≡ (L.source link.old).lenders }
    {
        for messages in 0..MESSAGES_MAX {
            match self.serve_next(service, link, clock, host_key, messages) {
                Ok(Turn::Answered(None)) => {}
                Ok(Turn::Answered(Some(end))) => {
                    return Session {
                        end,
                        messages: messages + 1,
                    };
                }
                Ok(Turn::Unanswered(end)) => return Session { end, messages },
                Err(_) => {
                    return Session {
                        end: SessionEnd::WriteFault,
                        messages,
                    };
                }
            }
        }
        unreachable!()
    }

    /// Serves the next message behind so many.
    fn serve_next<V: Service, L: Link, C: Clock>(
        &mut self,
        service: &mut V,
        link: &mut L,
        clock: &mut C,
        host_key: &Text,
        messages: u64,
    ) -> Result<Turn, WriteFault>
        requires waiting { self.old.answers ≡ [] }
        requires few { messages < most }
        ensures waiting { OnOk result (self.new.answers ≡ []) }
        ensures home { V.home service.new ≡ V.home service.old }
        ensures turn { (start : SessionState)
            → GoesOn host_key.now start
            (session_at (V.service service.old) (L.source link.old) (L.sink link.old) (C.moments clock.old))
            self.old.reader.held messages
            → TurnGoes host_key.now start
            (session_at (V.service service.new) (L.source link.new) (L.sink link.new) (C.moments clock.new))
            self.new.reader.held messages result }
        ensures lenders { (L.source link.new).lenders ≡ (L.source link.old).lenders }
    {
        match self.reader.next(link) {
            NextMessage::Whole => {
                let end = self.serve_whole(service, link, clock, host_key, messages)?;
                Ok(Turn::Answered(end))
            }
            NextMessage::Faulty { bodiless } => {
                let end = self.refuse(link, bodiless)?;
                Ok(Turn::Answered(end))
            }
            NextMessage::Ended => Ok(Turn::Unanswered(SessionEnd::Ended)),
            NextMessage::CutShort => Ok(Turn::Unanswered(SessionEnd::CutShort)),
            NextMessage::ReadFault => Ok(Turn::Unanswered(SessionEnd::ReadFault)),
        }
    }

    /// Answers a message that ends the session by a judgement.
    fn refuse<L: Link>(
        &mut self,
        link: &mut L,
        bodiless: bool,
    ) -> Result<Option<SessionEnd>, WriteFault>
        requires waiting { self.old.answers ≡ [] }
        ensures waiting { OnOk result (self.new.answers ≡ []) }
        ensures reader { self.new.reader ≡ self.old.reader }
        ensures turn { (host_key : List ℕ) (start : SessionState) (service : ServiceView) (moments : Option (List ℕ))
            (messages : ℕ) (head : Option HeadValue)
            → GoesOn host_key start (session_at service (L.source link.old) (L.sink link.old) moments)
            (self.old.reader.last ++ self.old.reader.held) messages
            → IsMessage self.old.reader.last (Faulty head) → bodiless ≡ is_bodiless (Faulty head)
            → GoesBehind host_key start (session_at service (L.source link.new) (L.sink link.new) moments)
            self.old.reader.held messages result }
        ensures lenders { (L.source link.new).lenders ≡ (L.source link.old).lenders }
    {
        let form = AnswerForm {
            bodiless,
            closes: true,
        };
        self.answers
            .write(link, &Answer::Judged(Judgement::NotBuilt), form)?;
        Ok(Some(SessionEnd::Malformed))
    }

    /// Judges a head with its body, makes its call, and writes the answer; answers how it ends the session, if it does.
    fn serve_whole<V: Service, L: Link, C: Clock>(
        &mut self,
        service: &mut V,
        link: &mut L,
        clock: &mut C,
        host_key: &Text,
        messages: u64,
    ) -> Result<Option<SessionEnd>, WriteFault>
        requires waiting { self.old.answers ≡ [] }
        requires few { messages < most }
        ensures waiting { OnOk result (self.new.answers ≡ []) }
        ensures reader { self.new.reader ≡ self.old.reader }
        ensures home { V.home service.new ≡ V.home service.old }
        ensures turn { (start : SessionState)
            → GoesOn host_key.now start
            (session_at (V.service service.old) (L.source link.old) (L.sink link.old) (C.moments clock.old))
            (self.old.reader.last ++ self.old.reader.held) messages
            → IsMessage self.old.reader.last (Whole self.old.reader.head self.old.reader.body)
            → GoesBehind host_key.now start
            (session_at (V.service service.new) (L.source link.new) (L.sink link.new) (C.moments clock.new))
            self.old.reader.held messages result }
        ensures lenders { (L.source link.new).lenders ≡ (L.source link.old).lenders }
    {
        let is_last = messages + 1 == MESSAGES_MAX;
        let head = self.reader.head();
        let closes = asks_to_close(&head);
        let form = form_of(&head, closes, is_last);
        let verdict = judge(
            self.alloc,
            &self.routes,
            host_key,
            &head,
            self.reader.body(),
        );
        let answer = answer_of(verdict, service, clock);
        self.answers.write(link, &answer, form)?;
        Ok(end_behind(closes, is_last))
    }
}

/// What answers a message by its verdict: the call is made where it asks for one.
fn answer_of<V: Service, C: Clock>(
    judged: Result<Verdict, NoMemory>,
    service: &mut V,
    clock: &mut C,
) -> Answer
    ensures home { V.home service.new ≡ V.home service.old }
    ensures answered { IsAnswered judged (calling_at (V.service service.old) (C.moments clock.old))
        (calling_at (V.service service.new) (C.moments clock.new)) result }
{
    match judged {
        Ok(Verdict::Asks(call)) => Answer::Served(service.call(clock.now(), call)),
        Ok(Verdict::Fails(judgement)) => Answer::Judged(judgement),
        Err(_) => Answer::Served(Err(Fault::NoMemory)),
    }
}

/// The form of the answer to a head: a message that asks to close, or the last one, closes.
fn form_of(head: &Head, closes: bool, is_last: bool) -> AnswerForm
    ensures { result ≡ record { bodiless = bytes_eq head.now.method (codes "HEAD"); closes = closes || is_last } }
{
    AnswerForm {
        bodiless: head.method() == b"HEAD".as_slice(),
        closes: closes || is_last,
    }
}

/// How a message that was answered ends the session, if it does.
fn end_behind(closes: bool, is_last: bool) -> Option<SessionEnd>
    ensures { result
        ≡ (if closes then Some SessionEnd.Closed else (if is_last then Some SessionEnd.SessionFull else None)) }
{
    if closes {
        Some(SessionEnd::Closed)
    } else if is_last {
        Some(SessionEnd::SessionFull)
    } else {
        None
    }
}
