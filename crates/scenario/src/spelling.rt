//! Laws of the spelling of files of any length.
ghost use Rattle.std.specs.Prelude.{◌≡◌, ◌↔◌, ℕ, List, Ok};
ghost use Rattle.scenario.specs.Printing.{scenario_text};
ghost use Rattle.scenario.specs.Reading.{Script, scenario_of};
ghost use Rattle.scenario.specs.Scripts.{IsScenario};
ghost use Rattle.scenario.specs.Spelling.{BitFilesAreSpelledInOneWay, LinesAreSpelledInOneWay, Says};

/// The text that is printed for a scenario is a scenario file, and it specifies that scenario.
pub fn printed_scenarios_are_read_again()
    ensures { (s : Script) → IsScenario s → scenario_of (scenario_text s) ≡ Ok s }
{}

/// Scenarios with one text are equal, even if the numbers of their lines differ.
pub fn scenarios_of_one_text_are_equal()
    ensures { (s t : Script) → IsScenario s → IsScenario t → scenario_text s ≡ scenario_text t →
        s ≡ t }
{}

/// Each meaning has one spelling: the words of a line mean exactly the line for which they are printed.
pub fn lines_are_spelled_in_one_way()
    ensures { LinesAreSpelledInOneWay }
{}

/// The texts that a grammar accepts, in terms of the printed texts. A text specifies a scenario exactly if it is within
/// the limits and its lines that are not skipped have the words that are printed for the scenario. Its headings may be in
/// any order, each at most once, and a heading with its default may be left out. The law for bits files is similar.
pub fn files_are_spelled_in_one_way()
    ensures scenarios { (text : List ℕ) (s : Script) → (scenario_of text ≡ Ok s) ↔ Says text s }
    ensures bits { BitFilesAreSpelledInOneWay }
{}
