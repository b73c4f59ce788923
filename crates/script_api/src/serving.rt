//! The turns of a script: line by line, its calls are made and answered.

ghost use Rattle.std.specs.Prelude.{◌≡◌, ◌<◌, ◌≤◌, true, [], IfOk, if◌then◌else◌};
ghost use Rattle.desk_io.specs.Putting.{Puts};
ghost use Rattle.desk_types.specs.Journal.{IsLegal};
ghost use Rattle.script_api.specs.ScriptRun.{ScriptState, script_at};
ghost use Rattle.script_api.specs.ScriptTurn.{midway, IsSoFar, IsAtLine, Goes, IsDone};
ghost use Rattle.desk_io.specs.SourceView.{SourceView};
ghost use Rattle.desk_io.specs.declared.limits.TheConstants.{INPUT_LINES_MAX};
ghost use Rattle.script_api.specs.ScriptValue.{end_of};

use crate::ending::ScriptEnd;
use crate::line::{ScriptLine, read_line};
use crate::reply_line::put_answer_line;
use desk_io::{LineFault, NextLine, NumberedLines, OutBuf, Sink, Source, WriteFault};
use desk_types::Service;
use query_words::NoMemory;
use std::alloc::Global;

/// What is kept from line to line of a script.
#[derive(Drop)]
pub struct LineServing {
    pub alloc: Global,
    pub lines: NumberedLines,
    pub answers: OutBuf,
}

impl LineServing {
    /// Before the first line.
    pub fn new(alloc: Global) -> Result<LineServing, NoMemory>
        ensures lines { IfOk result
            (λ serving. serving.lines ≡ record { count = 0; held = []; text = []; is_ended = true }) }
        ensures waiting { IfOk result (λ serving. serving.answers ≡ []) }
    {
        Ok(LineServing {
            alloc,
            lines: NumberedLines::new(alloc)?,
            answers: OutBuf::new(alloc)?,
        })
    }

    /// Serves the lines of the input up to the end of the script.
    pub fn serve_lines<V: Service, S: Source, T: Sink>(
        &mut self,
        service: &mut V,
        input: &mut S,
        output: &mut T,
    ) -> Result<ScriptEnd, WriteFault>
        requires lines { self.old.lines ≡ record { count = 0; held = []; text = []; is_ended = true } }
        requires waiting { self.old.answers ≡ [] }
        requires legal { IsLegal (V.service service.old).opening.settings (V.service service.old).seen }
        ensures home { V.home service.new ≡ V.home service.old }
        ensures done { IsDone (script_at (V.service service.old) (S.source input.old) (T.sink output.old))
            (script_at (V.service service.new) (S.source input.new) (T.sink output.new)) result }
        ensures sink_side { S.sink_side input.new ≡ S.sink_side input.old }
        ensures source_side { T.source_side output.new ≡ T.source_side output.old }
    {
        loop {
            if let Some(end) = self.serve_line(service, input, output)? {
                self.answers.flush(output)?;
                return Ok(end);
            }
        }
    }

    /// Serves the next line, and answers how it ends the script, if it does.
    fn serve_line<V: Service, S: Source, T: Sink>(
        &mut self,
        service: &mut V,
        input: &mut S,
        output: &mut T,
    ) -> Result<Option<ScriptEnd>, WriteFault>
        ensures home { V.home service.new ≡ V.home service.old }
        ensures turn { (start : ScriptState)
            → IsSoFar start
            (midway (script_at (V.service service.old) (S.source input.old) (T.sink output.old))
            self.old.lines self.old.answers)
            → Goes start
            (midway (script_at (V.service service.new) (S.source input.new) (T.sink output.new))
            self.new.lines self.new.answers)
            result }
        ensures counts { result ≡ Ok None →
            (self.old.lines.count < self.new.lines.count) × (self.new.lines.count ≤ INPUT_LINES_MAX) }
        ensures sink_side { S.sink_side input.new ≡ S.sink_side input.old }
        ensures source_side { T.source_side output.new ≡ T.source_side output.old }
    {
        self.flush_before_read(output)?;
        match self.lines.next(input) {
            NextLine::Text => self.serve_text(service, output),
            NextLine::Skipped => Ok(self.end_of_last()),
            NextLine::End => Ok(Some(ScriptEnd::Ended)),
            NextLine::Fault(fault) => Ok(Some(end_of_fault(fault))),
            NextLine::ReadFault => Ok(Some(ScriptEnd::ReadFault)),
        }
    }

    /// Writes the lines that wait before a read, which comes where no whole line is held.
    fn flush_before_read<T: Sink>(&mut self, output: &mut T) -> Result<(), WriteFault>
        ensures lines { self.new.lines ≡ self.old.lines }
        ensures puts { Puts (T.sink output.old) (T.sink output.new) self.old.answers self.new.answers [] result }
        ensures source_side { T.source_side output.new ≡ T.source_side output.old }
    {
        if self.lines.has_line() {
            return Ok(());
        }
        self.answers.flush(output)
    }

    /// Serves the line that was read, and answers how it ends the script, if it does.
    fn serve_text<V: Service, T: Sink>(
        &mut self,
        service: &mut V,
        output: &mut T,
    ) -> Result<Option<ScriptEnd>, WriteFault>
        ensures lines { self.new.lines ≡ self.old.lines }
        ensures home { V.home service.new ≡ V.home service.old }
        ensures turn { (start : ScriptState) → (source : SourceView)
            → IsAtLine start
            (midway (script_at (V.service service.old) source (T.sink output.old))
            self.old.lines self.old.answers)
            → Goes start
            (midway (script_at (V.service service.new) source (T.sink output.new))
            self.new.lines self.new.answers)
            result }
        ensures source_side { T.source_side output.new ≡ T.source_side output.old }
    {
        match read_line(self.alloc, self.lines.text()) {
            Ok(ScriptLine::Timed { moment, call }) => {
                let answer = service.call(moment, call);
                put_answer_line(&mut self.answers, output, &answer)?;
                Ok(self.end_of_last())
            }
            Ok(ScriptLine::Bad) => Ok(Some(ScriptEnd::BadLine(self.lines.number()))),
            Err(_) => Ok(Some(ScriptEnd::NoMemory)),
        }
    }

    /// The end of a script behind a line that no line feed ended, since no other follows it.
    fn end_of_last(&self) -> Option<ScriptEnd>
        ensures { result ≡ (if self.now.lines.is_ended then None else Some ScriptEnd.Ended) }
    {
        if self.lines.is_last() {
            Some(ScriptEnd::Ended)
        } else {
            None
        }
    }
}

/// How a script ends with a line that goes past a limit.
fn end_of_fault(fault: LineFault) -> ScriptEnd
    ensures { result ≡ end_of (Err fault) }
{
    match fault {
        LineFault::BadLine(number) => ScriptEnd::BadLine(number),
        LineFault::LongLine(number) => ScriptEnd::LongLine(number),
        LineFault::TooManyLines => ScriptEnd::TooManyLines,
    }
}
