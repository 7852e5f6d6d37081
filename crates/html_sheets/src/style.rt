//! How a page looks.
ghost use Rattle.std.specs.Prelude.{◌≡◌};
ghost use Rattle.html_sheets.specs.Styles.{style_text};

/// The style sheet of every page, on a screen and in print, a rule a line.
pub(crate) fn style_text() -> &'static str
    ensures { result.now ≡ style_text }
{
    ":root { color-scheme: light dark; --ink: #1b1f24; --soft: #57606a; --line: #d0d7de; --paper: #fff; --wash: #f6f8fa; --link: #0b57a4; --late: #a40e26 }\n\
     @media (prefers-color-scheme: dark) { :root { --ink: #e6edf3; --soft: #9198a1; --line: #3d444d; --paper: #0d1117; --wash: #151b23; --link: #79b8ff; --late: #ff8f9a } }\n\
     * { box-sizing: border-box }\n\
     body { margin: 0 auto; max-width: 66rem; padding: 0 1rem 3rem; font: 1rem/1.5 system-ui, sans-serif; color: var(--ink); background: var(--paper) }\n\
     main { display: flex; flex-direction: column }\n\
     a { color: var(--link) }\n\
     bdi { overflow-wrap: anywhere }\n\
     time, .number { white-space: nowrap }\n\
     h1 { font-size: 1.6rem; line-height: 1.25; margin: 1.5rem 0 .5rem }\n\
     h2 { font-size: 1.15rem; margin: 2rem 0 .5rem }\n\
     p { margin: .5rem 0 }\n\
     nav { display: flex; flex-wrap: wrap; align-items: center; gap: .4rem 1.25rem; margin: .5rem 0 }\n\
     nav[aria-label=Docket] { order: -1; margin: 0; padding: .75rem 0; border-bottom: 1px solid var(--line) }\n\
     nav form { font-size: .875rem }\n\
     nav form + form { margin-left: auto }\n\
     nav input, nav button { padding: .2rem .5rem }\n\
     .printed { display: none }\n\
     .act a { font-size: .875rem; margin-left: .5rem; white-space: nowrap }\n\
     dl { display: grid; grid-template-columns: max-content auto; gap: .2rem 1rem; margin: .5rem 0 }\n\
     dt { color: var(--soft) }\n\
     dd { margin: 0 }\n\
     table { border-collapse: collapse; width: 100%; margin: .5rem 0; font-variant-numeric: tabular-nums }\n\
     th, td { text-align: left; vertical-align: top; padding: .4rem .75rem .4rem 0; border-bottom: 1px solid var(--line) }\n\
     thead th { color: var(--soft); font-weight: 600; font-size: .85rem; border-bottom-width: 2px }\n\
     pre { margin: .5rem 0; padding: .75rem 1rem; overflow-x: auto; font: .9rem/1.5 ui-monospace, monospace; background: var(--wash); border: 1px solid var(--line) }\n\
     .late { color: var(--late); font-weight: 600 }\n\
     .said { border-left: 4px solid var(--late); background: var(--wash); padding: .6rem .9rem; margin: 1rem 0 }\n\
     [role=status] { border-left: 4px solid var(--link); padding: .1rem .9rem; margin: 1rem 0 }\n\
     [role=status] h2 { margin-top: .5rem }\n\
     .entry { max-width: 34rem; margin-top: 1rem }\n\
     .entry p { margin: 0 0 1rem }\n\
     .entry label { display: block; font-weight: 600; margin-bottom: .2rem }\n\
     .entry input, .entry select { width: 100% }\n\
     .hint { display: block; color: var(--soft); font-size: .875rem }\n\
     input, select, button { font: inherit; color: inherit; background: var(--paper); border: 1px solid var(--soft); border-radius: .3rem; padding: .4rem .55rem; max-width: 100% }\n\
     ::placeholder { color: var(--soft); opacity: 1 }\n\
     [aria-invalid=true] { border-color: var(--late); border-width: 2px }\n\
     button { color: var(--paper); background: var(--link); border-color: var(--link); padding: .4rem 1.1rem; cursor: pointer }\n\
     button.other { color: var(--link); background: var(--paper) }\n\
     :focus-visible { outline: 3px solid var(--link); outline-offset: 2px }\n\
     @media screen and (max-width: 52rem) { table, thead, tbody { display: block } tr { display: flex; flex-wrap: wrap; gap: 0 .75rem; padding: .4rem 0; border-bottom: 1px solid var(--line) } th, td { border: 0; padding: 0 } }\n\
     @media screen and (max-width: 52rem) { td:nth-child(4):nth-last-child(6)::before { content: 'case ' } td:nth-child(6):nth-last-child(4)::before { content: 'deadline ' } td:nth-child(8):nth-last-child(2)::before { content: 'party ' } }\n\
     @media screen and (max-width: 52rem) { pre { white-space: pre-wrap } .number bdi { white-space: normal } nav form + form { margin-left: 0 } }\n\
     @media print { nav, form, .act { display: none } main, .printed { display: block } body { max-width: none; padding: 0; font-size: 10pt } a { color: inherit; text-decoration: none } thead { display: table-header-group } tr { break-inside: avoid } }\n"
}
