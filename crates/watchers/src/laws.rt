//! Laws over the definitions alone.

ghost use Rattle.watchers.specs.Readings.{EachLivingRowIsTold};

/// Who asks for all pages, each before the place that the page before names, is told each row that lives all the time, unless its line is
/// too long. Other rows may begin, change and end between two pages.
pub fn each_living_row_is_told()
    ensures { EachLivingRowIsTold }
{}
