//! How the page looks.
ghost use Rattle.iso_html.specs.Styles.{style_text};
ghost use Rattle.iso_tap.specs.Printers.{Prints};

use iso_junit::part::Part;
use iso_junit::writing::parts;
use iso_tap::printer::Printer;
use iso_tap::sink::{Sink, SinkFailed};

/// Writes how the page looks.
pub(crate) fn style<W: Sink>(printer: &mut Printer<'_, W>) -> Result<(), SinkFailed>
    ensures { Prints printer.old printer.new style_text result }
{
    parts(
        printer,
        &[
            Part::Plain(
                ":root{color-scheme:light dark;--bg:#fff;--fg:#1c1e21;--dim:#565d66;--line:#d5d9de;--soft:#f4f5f7;--ok:#17693a;--bad:#b3261e;--skip:#6b5200;--block:#5a3ea6;--bar:#2f6fb3;--mark:#fdecea}\n",
            ),
            Part::Plain(
                "@media(prefers-color-scheme:dark){:root{--bg:#15171a;--fg:#e4e6e9;--dim:#a4abb4;--line:#3a3f46;--soft:#1f2226;--ok:#6fcf97;--bad:#ff8f85;--skip:#e0bd5a;--block:#bba6f5;--bar:#6aa7e8;--mark:#42201d}}\n",
            ),
            Part::Plain("*{box-sizing:border-box}\n"),
            Part::Plain(
                "body{margin:0;background:var(--bg);color:var(--fg);font:16px/1.5 system-ui,sans-serif}\n",
            ),
            Part::Plain("main{max-width:72rem;margin:0 auto;padding:1rem}\n"),
            Part::Plain("h1{font-size:1.5rem;margin:.25rem 0 .75rem}\n"),
            Part::Plain(
                "h2{font-size:1.2rem;margin:2rem 0 .5rem;padding-bottom:.25rem;border-bottom:1px solid var(--line)}\n",
            ),
            Part::Plain("h3{font-size:1rem;margin:0 0 .25rem;overflow-wrap:anywhere}\n"),
            Part::Plain("p{margin:.25rem 0;overflow-wrap:anywhere}\n"),
            Part::Plain("a{color:inherit}\n"),
            Part::Plain(":focus-visible{outline:2px solid var(--bar);outline-offset:2px}\n"),
            Part::Plain(":target{background:var(--mark)}\n"),
            Part::Plain("code,pre{font:.875rem/1.5 ui-monospace,monospace}\n"),
            Part::Plain("code{overflow-wrap:anywhere}\n"),
            Part::Plain(
                "pre{margin:.5rem 0;padding:.5rem .75rem;background:var(--soft);border-left:3px solid var(--line);overflow-x:auto}\n",
            ),
            Part::Plain("mark{background:var(--mark);color:inherit}\n"),
            Part::Plain(
                "small{color:var(--dim);font-size:.875rem;font-weight:400;overflow-wrap:anywhere}\n",
            ),
            Part::Plain(
                ".ok{color:var(--ok)}.bad{color:var(--bad)}.skip{color:var(--skip)}.block{color:var(--block)}\n",
            ),
            Part::Plain(".ok,.bad,.skip,.block{font-weight:600;white-space:nowrap}\n"),
            Part::Plain(".figures{display:flex;flex-wrap:wrap;gap:.5rem}\n"),
            Part::Plain(
                ".figures li{min-width:5.5rem;padding:.5rem .75rem;background:var(--soft);border-radius:4px}\n",
            ),
            Part::Plain(".figures b{display:block;font-size:1.25rem;line-height:1.3}\n"),
            Part::Plain(
                "article{margin:.75rem 0;padding:.75rem;border:1px solid var(--line);border-left:4px solid var(--bad);border-radius:4px}\n",
            ),
            Part::Plain(
                "fieldset{display:flex;flex-wrap:wrap;gap:.25rem 1.25rem;margin:.5rem 0;padding:.25rem .75rem;border:1px solid var(--line);border-radius:4px}\n",
            ),
            Part::Plain("ul{list-style:none;margin:0;padding:0}\n"),
            Part::Plain(
                "ul ul{margin-left:.6rem;padding-left:.6rem;border-left:1px solid var(--line)}\n",
            ),
            Part::Plain("summary{padding:.15rem .25rem;cursor:pointer;overflow-wrap:anywhere}\n"),
            Part::Plain("summary:hover{background:var(--soft)}\n"),
            Part::Plain("li>details>:not(summary,ul){margin-left:1.6rem}\n"),
            Part::Plain(
                "section:has(#red:checked) li:not(:has(.bad,.block)),section:has(#skipped:checked) li:not(:has(.skip)){display:none}\n",
            ),
            Part::Plain(
                "section:has(#skipped:checked) li>details::details-content{content-visibility:visible;block-size:auto}\n",
            ),
            Part::Plain(
                ".run{display:grid;grid-template-columns:clamp(5rem,22vw,12rem) 1fr;column-gap:.5rem}\n",
            ),
            Part::Plain(".run ol{list-style:none;margin:0;padding:0;min-width:0}\n"),
            Part::Plain(
                ".run li{height:24px;font-size:.8125rem;line-height:24px;overflow:hidden;text-overflow:ellipsis;white-space:nowrap}\n",
            ),
            Part::Plain(".run svg{display:block;width:100%;background:var(--soft)}\n"),
            Part::Plain(
                ".run p{grid-column:2;display:flex;justify-content:space-between;margin:0;color:var(--dim);font-size:.8125rem;white-space:nowrap}\n",
            ),
            Part::Plain(
                "rect{fill:var(--bar);stroke:var(--bg);stroke-width:.5;vector-effect:non-scaling-stroke}\n",
            ),
            Part::Plain("rect[width=\"1.00\"]{stroke:none}\n"),
            Part::Plain("rect.f{fill:var(--bad)}\n"),
            Part::Plain("rect.r,rect.w{fill:var(--skip);opacity:.6}\n"),
            Part::Plain("rect.w{fill:var(--block)}\n"),
            Part::Plain("rect.c{stroke:var(--fg);stroke-width:2}\n"),
            Part::Plain(".wide{overflow-x:auto}\n"),
            Part::Plain("table{border-collapse:collapse;width:100%}\n"),
            Part::Plain(
                "th,td{padding:.25rem .75rem .25rem 0;border-bottom:1px solid var(--line);text-align:left;vertical-align:top}\n",
            ),
            Part::Plain(
                "th[scope=row],td:first-child{min-width:11rem;overflow-wrap:anywhere;font-weight:400}\n",
            ),
            Part::Plain(
                "td.n,th.n{text-align:right;white-space:nowrap;font-variant-numeric:tabular-nums}\n",
            ),
            Part::Plain(
                "@media print{:root{--bg:#fff;--fg:#000;--soft:#f4f5f7}fieldset{display:none}article,rect,.run{break-inside:avoid;print-color-adjust:exact}pre{white-space:pre-wrap}details::details-content{content-visibility:visible;block-size:auto}}\n",
            ),
        ],
    )
}
