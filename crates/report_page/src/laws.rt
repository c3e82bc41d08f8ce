//! Laws of pages, as contracts of functions that do nothing.
ghost use Rattle.std.specs.Prelude.{◌≡◌, ◌==◌, ℕ, false, flat_map, List};
ghost use Rattle.std.specs.List.{AllByRecursion};
ghost use Rattle.report_page.specs.Page.{in_html, in_script};

/// As they stand in a page, neither the brief text nor the document has a `<`. So no element begins or ends there, whatever the names are.
pub fn nothing_ends_what_it_stands_in()
    ensures text { (brief : List ℕ) → AllByRecursion (λ byte. (byte == 60) ≡ false) (flat_map in_html brief) }
    ensures document { (document : List ℕ) → AllByRecursion (λ byte. (byte == 60) ≡ false) (flat_map in_script document) }
{}
