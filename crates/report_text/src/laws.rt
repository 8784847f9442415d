//! Laws of reports.

ghost use Rattle.std.specs.Prelude.{◌≡◌, ℕ, List, ◌++◌, [], ◌∷◌, codes};
ghost use Rattle.std.specs.Fmt.{decimal};
ghost use Rattle.event_text.specs.Grammar.{EventLine};
ghost use Rattle.events.specs.Events.{PlainEvent};
ghost use Rattle.events.specs.declared.turn.Turn.{Turn};
ghost use Rattle.ha_base.specs.declared.outside.Moment.{Moment};
ghost use Rattle.report_text.specs.LineRanges.{FitsLine};
ghost use Rattle.report_text.specs.Lines.{ReportLine, TurnLine};
ghost use Rattle.report_text.specs.Report.{report, report_head, report_lines};
ghost use Rattle.report_text.specs.Spelling.{report_line_text, report_lines_text, report_words};

/// The event's line stands in the first line of its turn as it stands in the file.
pub fn turns_repeat_their_lines()
    ensures { (last number : ℕ) (line : List ℕ) (moment : Moment) (event : PlainEvent)
        → EventLine last line moment event
        → report_line_text (TurnLine number moment event)
        ≡ (codes "turn" ++ ((32 ∷ decimal number) ++ (32 ∷ line))) ++ 10 ∷ [] }
{}

/// A report is its first line, and then the lines of its turns and its last line.
pub fn reports_are_lines()
    ensures { (turns : List Turn) → report turns
        ≡ report_head ++ report_lines_text (report_lines turns) }
{}

/// The words of a line tell which line it is: its kind by the first, and its fields by the others.
pub fn words_tell_their_line()
    ensures { (l m : ReportLine) → FitsLine l → FitsLine m
        → report_words l ≡ report_words m → l ≡ m }
{}
