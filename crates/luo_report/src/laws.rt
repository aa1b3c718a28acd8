//! Laws of averages, and how reports are written.
ghost use Rattle.luo_report.specs.Facts.{RowsAreWritten, HeadingsAreWritten, ReportsAreWritten};
ghost use Rattle.luo_report.specs.Laws.{AverageIsWritten};

/// What is written is the average in lowest terms.
pub fn average_is_written()
    ensures { AverageIsWritten }
{}

/// How rows, headings and a small report are written.
pub fn reports_are_written()
    ensures rows { RowsAreWritten }
    ensures headings { HeadingsAreWritten }
    ensures reports { ReportsAreWritten }
{}
