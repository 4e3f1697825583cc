//! The laws, as contracts of functions that do nothing.

ghost use Rattle.dds_client_view.specs.Law.{ClientsSeeOneHistory, QuietLinesAreAnswered};

/// Of each script whose run stands, and in whose quiet worlds everybody is answered, what its lines printed is what a
/// client of one map sees.
pub fn clients_see_one_history()
    ensures { ClientsSeeOneHistory }
{}

/// Of each script in whose quiet worlds everybody is answered, each line `quiet` that isn't loud leaves such a world.
pub fn quiet_lines_are_answered()
    ensures { QuietLinesAreAnswered }
{}
