//! How the page looks, light and dark.

/// The style of all but the picture, which has its own.
pub const STYLE: &str = r##"
:root{color-scheme:light dark;--back:#fff;--text:#1c2329;--faint:#5a6570;--edge:#c3cad1;--band:#f3f5f7;
--chosen:#1d5fd1;--wash:#1d5fd12e}
@media (prefers-color-scheme:dark){:root{--back:#14181c;--text:#e4e9ee;--faint:#9aa7b4;--edge:#3a444e;--band:#1b2026;
--chosen:#8ab4ff;--wash:#8ab4ff38}}
*{box-sizing:border-box}
html,body{height:100%;margin:0}
body{display:grid;grid-template:auto minmax(0,1fr)/minmax(0,1fr) 23rem;background:var(--back);color:var(--text);
font:14px/1.4 "Segoe UI",Roboto,"Helvetica Neue",Arial,"Liberation Sans",system-ui,sans-serif}
#tools{grid-column:1/3;display:flex;gap:.5rem;align-items:center;padding:.4rem .8rem;background:var(--band);
border-bottom:1px solid var(--edge)}
#tools label{display:flex;flex:1;gap:.5rem;align-items:center}
#moment{flex:1;min-width:6rem;accent-color:var(--chosen)}
#now{min-width:13rem;font-variant-numeric:tabular-nums}
#view{overflow:auto;cursor:grab;touch-action:pan-x pan-y}
#view.dragged{cursor:grabbing;user-select:none}
#view svg{display:block}
#side{border-left:1px solid var(--edge);display:grid;grid-template-rows:minmax(0,3fr) minmax(0,2fr)}
#side section{overflow:auto;padding:.5rem .8rem}
#side section+section{border-top:1px solid var(--edge)}
h2{font-size:1rem;margin:.2rem 0 .4rem}
h3{font-size:.85rem;font-weight:600;color:var(--faint);margin:.8rem 0 .1rem}
p{color:var(--faint);margin:.2rem 0}
table{border-collapse:collapse;width:100%}
td,th{padding:.08rem .3rem;text-align:left;vertical-align:top;font-weight:400}
th{width:8.5rem;padding-left:0}
.new-state td{font-weight:600}
ol{list-style:none;margin:0;padding:0}
button{font:inherit;color:inherit;background:none;border:1px solid var(--edge);border-radius:4px;padding:.1rem .5rem;
cursor:pointer}
th button,li button{border:0;padding:0 .2rem;text-align:left}
th button:hover,li button:hover{background:var(--wash)}
li button{display:flex;gap:.6rem;width:100%;font-size:13px}
li b{min-width:2.5rem;text-align:right;font-weight:400;color:var(--faint);font-variant-numeric:tabular-nums}
[aria-pressed=true],[aria-current=true]{background:var(--wash)}
:focus-visible{outline:2px solid var(--chosen);outline-offset:-1px}
.chosen-event{fill:var(--wash);stroke:var(--chosen);stroke-width:1;pointer-events:none}
@media (max-width:900px){body{grid-template:auto minmax(0,1fr) minmax(0,1fr)/1fr}#tools{grid-column:1;flex-wrap:wrap}
#side{border-left:0;border-top:1px solid var(--edge)}}
@media print{#tools,#side{display:none}#view{overflow:visible}}
"##;
