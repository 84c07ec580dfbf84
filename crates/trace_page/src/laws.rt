// Laws of pages.
ghost use Rattle.std.specs.Prelude.{ℕ, List, IsTrue, codes, true, false, ◌≡◌};
ghost use Rattle.trace_page.specs.Nesting.{is_nested};
ghost use Rattle.trace_page.specs.Page.{page};
ghost use Rattle.trace_page.specs.Titles.{LinesAreTitles, TextsArePlain};

/// Where all calls of a trace are drawn, each of its lines is a title of the page, once and in order.
pub fn lines_are_titles()
    ensures { (last : ℕ) (lines : List (List ℕ)) → LinesAreTitles last lines }
{}

/// No text of a trace begins or ends an element.
pub fn texts_are_plain()
    ensures { (text : List ℕ) → TextsArePlain text }
{}

/// Each element of a page is closed, and those inside of it before.
pub fn elements_are_closed()
    ensures { (base last : ℕ) (lines : List (List ℕ)) → IsTrue (is_nested (page base last lines)) }
{}

/// What it is that elements are closed: pages for which it holds, and others for which it doesn't.
pub fn some_are_closed()
    ensures whole { is_nested
        (codes
        "<!DOCTYPE html>\n<html lang='en'><meta charset='utf-8'><p title='a>b'>it's</p><use href=\"#tick\"/></html>\n")
        ≡ true }
    ensures unclosed { is_nested (codes "<g><title>stuck</title>") ≡ false }
    ensures unopened { is_nested (codes "<title>stuck</title></g>") ≡ false }
    ensures crossed { is_nested (codes "<g><title>stuck</g></title>") ≡ false }
    ensures bare { is_nested (codes "<p>1 < 2</p>") ≡ false }
    ensures unquoted { is_nested (codes "<g class='held></g>") ≡ false }
    ensures half { is_nested (codes "<p>stuck</p") ≡ false }
{}
