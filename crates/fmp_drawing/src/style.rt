//! How a picture looks: its style, light and dark, and the shapes that it uses.

/// The style on a light page, and in print.
pub const LIGHT: &str = r##"svg{background:#fff}
text{font-family:"Segoe UI",Roboto,"Helvetica Neue",Arial,"Liberation Sans",system-ui,
sans-serif;font-size:9px;fill:#1c2329}
.h1{font-size:17px;font-weight:600}.h2{font-size:11px;fill:#5a6570}.n{font-size:11.5px}
.pn{font-size:12px;font-weight:600}
.m{font-size:9px;fill:#5a6570}.e{text-anchor:end}.c{text-anchor:middle}.k{font-size:10px;font-weight:600}
.band{fill:#f3f5f7}.pband{fill:#e6eaee}.grid{stroke:#e3e7eb;fill:none}
.tk{stroke:#8d99a6;fill:none;stroke-dasharray:2 2}
.tkb{fill:#5a6570}.tkt{fill:#fff;font-weight:600}.lead{fill:#fff;fill-opacity:.55}
.dorm{stroke:#b4bdc6;fill:none}.away{stroke:#b4bdc6;fill:none;stroke-dasharray:1 4}
.w{fill:#fff;stroke:#7b8794}.wt{fill:#39434d;paint-order:stroke;stroke:#fff;stroke-width:1.5px}
.s{fill:url(#hs);stroke:#5a6570}.ws{fill:url(#hs);stroke:none}
.i{fill:none;stroke:#c3cad1}.y{fill-opacity:.2;stroke-width:1}.over{fill:url(#ho)}.hold{fill:url(#hh)}
.hr{fill:url(#hd);stroke:#1c2329}.hp{fill:#fff;stroke:#1c2329;stroke-dasharray:2 2}
.lc{fill:#1c2329}.lct{fill:#fff;font-size:8px}.ls{fill:#1c2329}.sp{fill:url(#sp)}
.spb{fill:url(#sp);stroke:#1c2329}.spt{font-size:8px}
.ld{fill:#667280}.ldt{fill:#fff;font-size:8px}
.ln{stroke:#1c2329;fill:none;stroke-opacity:.75}.dot{fill:#1c2329}.mk{fill:#1c2329;stroke:#1c2329}
.mo{fill:#fff;stroke:#1c2329}
.halo{stroke:#fff;stroke-width:4.5;fill:none;stroke-linejoin:round}
.er{stroke:#c1121f;stroke-width:2.2;fill:none}.ef{fill:#c1121f;stroke:#fff}
.et{fill:#c1121f;font-size:8px;font-weight:600}.eb{fill:#fff;stroke:#c1121f;stroke-width:.8}
.am{stroke:#8a5a00;fill:#fff;stroke-width:1.5}
.at{fill:#8a5a00;font-size:8px;font-weight:600}.ab{fill:#fff;stroke:#8a5a00;stroke-width:.8}
.b{fill:#fff;stroke:#7b8794}.bq{fill:#39434d}.f{stroke:none}.o{fill:none}.tb{fill:#fff}.s8{font-size:8.5px}
.s7{font-size:8px}.thin{stroke-width:1.5}.mg{stroke-width:2.5}.hov{fill:#39434d}
.pb{fill:#fff;stroke:#1c2329;stroke-width:.8}.pt{font-size:8px;font-weight:600}.ikb{fill:#fff;stroke:#5a6570}
.ikt{fill:#39434d;font-weight:600}
.pl{fill:#fff;fill-opacity:0;stroke:#8d99a6;stroke-width:.7}a:hover .pl{fill-opacity:.35}
a text{text-decoration:underline}.cut{stroke-opacity:.55;fill:none;stroke:#fff}
.z{fill:none;pointer-events:all}.q{pointer-events:none}
.c0{fill:#433c9b;stroke:#433c9b}.d0{fill:#fff}.g0{fill:none;stroke:#fff}
.c1{fill:#bbc24c;stroke:#7f8519}.d1{fill:#000}.g1{fill:none;stroke:#000}
.c2{fill:#0d7f50;stroke:#0d7f50}.d2{fill:#fff}.g2{fill:none;stroke:#fff}
.c3{fill:#ffb29b;stroke:#c4694c}.d3{fill:#000}.g3{fill:none;stroke:#000}
.c4{fill:#956200;stroke:#956200}.d4{fill:#fff}.g4{fill:none;stroke:#fff}
.c5{fill:#46cdd4;stroke:#128a91}.d5{fill:#000}.g5{fill:none;stroke:#000}
.c6{fill:#614c65;stroke:#614c65}.d6{fill:#fff}.g6{fill:none;stroke:#fff}
.c7{fill:#a3a9ff;stroke:#6a70d0}.d7{fill:#000}.g7{fill:none;stroke:#000}
.p0,.p1,.p2,.p3,.p4,.p5,.p6,.p7{paint-order:stroke;stroke-width:4px;stroke-linejoin:round}
.p0{stroke:#433c9b}.p1{stroke:#bbc24c}.p2{stroke:#0d7f50}.p3{stroke:#ffb29b}
.p4{stroke:#956200}.p5{stroke:#46cdd4}.p6{stroke:#614c65}.p7{stroke:#a3a9ff}
.x1w{fill:url(#x1w)}.x2w{fill:url(#x2w)}.x3w{fill:url(#x3w)}
.x1b{fill:url(#x1b)}.x2b{fill:url(#x2b)}.x3b{fill:url(#x3b)}
.f{stroke:none}.o{fill:none}"##;

/// What differs on a dark screen.
pub const DARK: &str = r##"svg{background:#14181c}
text{fill:#e4e9ee}.h2,.m{fill:#9aa7b4}.band{fill:#1b2026}.pband{fill:#272e36}.grid{stroke:#2a3139}
.tk{stroke:#6b7783}
.tkb{fill:#9aa7b4}.tkt{fill:#14181c}.lead{fill:#14181c}.dorm,.away{stroke:#4d5965}
.w{fill:#14181c;stroke:#8592a0}.wt{fill:#d3dbe3;stroke:#14181c}
.s{stroke:#9aa7b4}.i{stroke:#3a444e}.y{fill-opacity:.42}.hr{stroke:#e4e9ee}.hp{fill:#14181c;stroke:#e4e9ee}
.lc,.ls{fill:#e4e9ee}.lct{fill:#14181c}
.spb{stroke:#e4e9ee}.ld{fill:#6b7783}.ln{stroke:#e4e9ee}.dot{fill:#e4e9ee}.mk{fill:#e4e9ee;stroke:#e4e9ee}
.mo{fill:#14181c;stroke:#e4e9ee}
.halo{stroke:#14181c}.er{stroke:#ff6b6b}.ef{fill:#ff6b6b;stroke:#14181c}.et{fill:#ff6b6b}
.eb{fill:#14181c;stroke:#ff6b6b}
.am{stroke:#f0b429;fill:#14181c}.at{fill:#f0b429}.ab{fill:#14181c;stroke:#f0b429}
.b{fill:#14181c;stroke:#8592a0}.bq{fill:#d3dbe3}
.tb,.pb,.ikb{fill:#14181c}.pb{stroke:#e4e9ee}.hov{fill:#c3cad1}.ikb{stroke:#9aa7b4}.ikt{fill:#d3dbe3}
.pi{stroke:#e4e9ee}.ph{stroke:#8592a0}.pg{stroke:#9aa7b4}.pw{fill:#14181c}.pl2{stroke:#14181c}
.c0{fill:#5a52bd;stroke:#5a52bd}
.c1{fill:#bbc24c;stroke:#bbc24c}
.c2{fill:#0d7f50;stroke:#0d7f50}
.c3{fill:#ffb29b;stroke:#ffb29b}
.c4{fill:#956200;stroke:#956200}
.c5{fill:#46cdd4;stroke:#46cdd4}
.c6{fill:#7a6380;stroke:#7a6380}
.c7{fill:#a3a9ff;stroke:#a3a9ff}
.p0{stroke:#5a52bd}.p6{stroke:#7a6380}
.f{stroke:none}.o{fill:none}"##;

/// Hatches and marks. Each mark has its middle at the event's line.
pub const SHAPES: &str = r##"<defs>
<pattern id="hs" width="5" height="5" patternUnits="userSpaceOnUse">
<path class="pg" d="M0 0l5 5M0 5l5-5" stroke="#7b8794" stroke-width=".8"/></pattern>
<pattern id="ho" width="6" height="6" patternUnits="userSpaceOnUse">
<rect class="pw" width="6" height="6" fill="#fff" fill-opacity=".42"/>
<path class="pl2" d="M-1 1l2-2M0 6l6-6M5 7l2-2" stroke="#fff" stroke-width="1.3"/></pattern>
<pattern id="hh" width="6" height="6" patternUnits="userSpaceOnUse">
<path d="M0 0l6 6M0 6l6-6" stroke="#fff" stroke-width="1.2"/></pattern>
<pattern id="hd" width="5" height="5" patternUnits="userSpaceOnUse">
<rect class="pw" width="5" height="5" fill="#fff"/>
<path class="ph" d="M-1 1l2-2M0 5l5-5M4 6l2-2" stroke="#39434d" stroke-width="1.1"/></pattern>
<pattern id="sp" width="6" height="10" patternUnits="userSpaceOnUse">
<path class="pi" d="M0 5l1.5-2.5l3 5l1.5-2.5" stroke="#1c2329" fill="none"/></pattern>
<pattern id="x1w" width="7" height="7" patternUnits="userSpaceOnUse">
<path d="M-1 6l2 2M0 0l7 7M6-1l2 2" stroke="#fff" stroke-opacity=".45" stroke-width="1.5"/></pattern>
<pattern id="x2w" width="5" height="5" patternUnits="userSpaceOnUse">
<circle cx="2.5" cy="2.5" r="1.1" fill="#fff" fill-opacity=".55"/></pattern>
<pattern id="x3w" width="5" height="5" patternUnits="userSpaceOnUse">
<path d="M1.5 0V5" stroke="#fff" stroke-opacity=".45" stroke-width="1.5"/></pattern>
<pattern id="x1b" width="7" height="7" patternUnits="userSpaceOnUse">
<path d="M-1 6l2 2M0 0l7 7M6-1l2 2" stroke="#000" stroke-opacity=".38" stroke-width="1.5"/></pattern>
<pattern id="x2b" width="5" height="5" patternUnits="userSpaceOnUse">
<circle cx="2.5" cy="2.5" r="1.1" fill="#000" fill-opacity=".45"/></pattern>
<pattern id="x3b" width="5" height="5" patternUnits="userSpaceOnUse">
<path d="M1.5 0V5" stroke="#000" stroke-opacity=".38" stroke-width="1.5"/></pattern>
<g id="act"><path class="mk" d="M0 9V-7" fill="none" stroke-width="1.6"/>
<path class="mk" d="M0-10l3 5h-6z" stroke-width=".5"/></g>
<g id="queued"><path class="mk" d="M0 9V-5" fill="none" stroke-width="1.2" stroke-dasharray="2 1.5"/>
<path class="mo" d="M0-10l3 5h-6z"/></g>
<g id="rel"><path class="mk" d="M-3-4l6 4l-6 4z" stroke-width=".5"/></g>
<g id="wup"><path class="mo" d="M-3-4l6 4l-6 4z"/></g>
<g id="tmo"><path class="am" d="M-3.5-5h7l-7 10h7z"/></g>
<g id="rlw"><path class="am" d="M-4 0l4-4.5l4 4.5l-4 4.5z"/></g>
<g id="poll"><circle class="am" r="3.2"/></g>
<g id="refused"><path class="halo" d="M-3-3l6 6M3-3l-6 6"/><path class="er" d="M-3-3l6 6M3-3l-6 6"/></g>
<g id="fault"><path class="ef" d="M0-7l2 3.5l4-.5l-2 4l2 4l-4-.5l-2 3.5l-2-3.5l-4 .5l2-4l-2-4l4 .5z"/></g>
<g id="end"><path class="mk" d="M0-8V8M-3-8h3M-3 8h3" fill="none" stroke-width="1.4"/></g>
<g id="ter"><path class="halo" d="M0-8V8"/>
<path class="mk" d="M0-8V8M-3-8h3M-3 8h3M-3-2l4 4M1-2l-4 4" fill="none" stroke-width="1.2"/></g>
<g id="int"><path class="mk" d="M1-8l-4 8h3l-1 7l4-9h-3z" stroke-width=".4"/></g>
<g id="due"><path class="mk" d="M0-7V3" fill="none" stroke-width="1.4"/>
<path class="mk" d="M0 7l3-5h-6z" stroke-width=".4"/></g>
<g id="kept"><path class="mk" d="M-4 7h1.6M-.8 7h1.6M2.4 7h1.6" fill="none" stroke-width="1.6"/></g>
</defs>"##;
