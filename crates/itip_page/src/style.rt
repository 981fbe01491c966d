//! How a page looks.

/// The style of a page: light and dark, a table on a wide screen and in print, and a card for each row on a narrow one.
pub(crate) const STYLE: &str = ":root{color-scheme:light dark}
:root{--ink:#1b1d1f;--soft:#5a6067;--line:#cfd3d7;--sheet:#fff;--card:#fff;--late:#a3201b;--bar:#2f6f5e;--rest:#e4e7ea}
*{box-sizing:border-box}
html{-webkit-text-size-adjust:100%;text-size-adjust:100%}
body{margin:0 auto;padding:1.5rem;max-width:84rem;background:var(--sheet);color:var(--ink)}
body{font:1rem/1.45 system-ui,-apple-system,'Segoe UI',Roboto,'DejaVu Sans',sans-serif}
h1{margin:0;font-size:1.6rem;line-height:1.25}
h1 span{font-weight:400;color:var(--soft);white-space:nowrap}
p{margin:.3rem 0 1.2rem;color:var(--soft)}
table{width:100%;border-collapse:collapse;table-layout:fixed}
th,td{padding:.55rem 1rem .55rem 0;border-bottom:1px solid var(--line);vertical-align:top}
th,td{text-align:start;font-weight:400;overflow-wrap:anywhere}
th:last-child,td:last-child{padding-inline-end:0}
thead th{border-bottom:2px solid var(--ink);font-weight:600}
thead th:nth-child(1){width:27%}
thead th:nth-child(2),thead th:nth-child(3){width:13.5%}
thead th:nth-child(4){width:10%}
thead th:nth-child(5){width:12%}
tbody th{font-weight:600}
bdi,small{max-width:100%}
bdi{display:inline-block}
small{display:inline-block;font-size:.82em;color:var(--soft)}
strong{display:block;font-weight:700;color:var(--late)}
ul{margin:0;padding:0;list-style:none}
li+li{margin-top:.2rem}
li span{display:inline-block;color:var(--soft)}
.bar{display:inline-block;width:calc(100% - 3.4rem);height:.5rem;border-radius:.25rem;background:var(--rest);vertical-align:middle}
.bar{overflow:hidden;-webkit-print-color-adjust:exact;print-color-adjust:exact}
.bar i{display:block;height:100%;background:var(--bar)}
.late th{position:relative}
.late th::before{content:'';position:absolute;inset-block:.5rem;inset-inline-start:-.8rem;border-inline-start:4px solid var(--late)}
@media screen and (prefers-color-scheme:dark){
:root{--ink:#eceef0;--soft:#a9b0b7;--line:#3d4349;--sheet:#15181b;--card:#1d2125;--late:#ff9d94;--bar:#7cc7b0;--rest:#343a40}
}
@media screen and (max-width:60rem){
body{padding:1rem}
h1 span{display:block;font-size:1.15rem}
thead{position:absolute;width:1px;height:1px;overflow:hidden;clip-path:inset(50%)}
table,tbody,tr,th,td{display:block;width:auto}
tbody tr{margin-bottom:.8rem;padding:.7rem .9rem;border:1px solid var(--line);border-radius:.5rem;background:var(--card)}
tbody th{padding:0 0 .35rem;border:0;font-size:1.08rem}
td{position:relative;min-height:1.45em;padding:.15rem 0 .15rem 5.2rem;border:0}
td:empty{display:none}
td::before{position:absolute;inset-inline-start:0;color:var(--soft)}
td:nth-child(2)::before{content:'When'}
td:nth-child(3)::before{content:'Due'}
td:nth-child(4)::before{content:'Status'}
td:nth-child(5)::before{content:'How far'}
td:nth-child(6)::before{content:'Who'}
tbody tr.late{border-inline-start:4px solid var(--late)}
.late th::before{content:none}
}
@media print{
@page{margin:1.5cm}
body{max-width:none;padding:0;font-size:9pt}
h1{font-size:15pt}
th,td{padding:.35rem .6rem .35rem 0}
thead th:nth-child(1){width:25%}
thead th:nth-child(2),thead th:nth-child(3){width:12%}
thead th:nth-child(4){width:11%}
.bar{display:block;width:100%;margin:.3rem 0}
thead{display:table-header-group}
tr{break-inside:avoid}
}
";
