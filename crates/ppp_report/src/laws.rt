//! What holds of reports, whoever reads them.
ghost use Rattle.std.specs.Prelude.{◌≡◌, List, [], codes};
ghost use Rattle.ppp_mark.specs.Lines.{lines_of};
ghost use Rattle.ppp_report.specs.BadLine.{BadLine, IsLawfulReport};
ghost use Rattle.ppp_report.specs.Lawful.{KeepLaw};
ghost use Rattle.ppp_report.specs.Report.{AreSections, Section, report_lines, report_text};

/// The report of logs that keep the law of site scripts, and agree with the protocol while none runs, is lawful. Its
/// lines are those of its sections.
pub fn written_is_lawful()
    ensures lines { (sections : List Section) → AreSections 0 0 sections → lines_of (report_text sections) ≡ report_lines sections }
    ensures lawful { (sections : List Section) → AreSections 0 0 sections → KeepLaw sections → IsLawfulReport (report_text sections) }
{}

/// What is written is read again as the same logs: two lists of sections with the same text are the same.
pub fn again()
    ensures { (a b : List Section) → AreSections 0 0 a → AreSections 0 0 b → report_text a ≡ report_text b → a ≡ b }
{}

/// Some reports and their first bad lines.
pub fn rows()
    ensures lawful { IsLawfulReport (codes "link 1\nstatus 5\nend\n") × IsLawfulReport (codes "link 1\nstatus 5\nend") × IsLawfulReport (codes "end\n") }
    ensures status { BadLine (codes "link 1\n0 attempt 0 0 1\nstatus none\nend\n") 3 }
    ensures second_start { BadLine (codes "unit 0\n0 ip-open 0 0 1\n0 start 1 0 1\n0 start 1 0 1\n") 4 }
    ensures no_marks { BadLine (codes "unit 0\nend\n") 2 }
    ensures nothing { BadLine [] 1 }
    ensures cut_off { BadLine (codes "link 1") 2 }
    ensures behind_end { BadLine (codes "end\n\n") 2 }
    ensures up_is_missing { BadLine (codes "unit 0\n0 ip-open 0 0 1") 2 }
{}
